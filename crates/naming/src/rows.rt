// The rows of names: the row of a name, a name that is stored in a row, and one that is taken off.
ghost use Rattle.std.specs.Prelude.{◌≡◌, pred, ◌≤◌, ◌<◌, length, get_or, IfSome};
ghost use Rattle.model.specs.Names.{carries, row_of};
ghost use Rattle.model.specs.Layout.{name_cell, title_cell, titles_of};
ghost use Rattle.tables.specs.Links.{link_of};
ghost use Rattle.tables.specs.Titles.{title_put};
ghost use Rattle.naming.specs.Rows.{count_up, count_down, taken_off};

use crate::letters::{put_letters, same_letters};
use tables::cells::{LETTERS, NAMES, TITLE, TITLES};
use tables::find::wide;

// Whether row i is in use and has this name.
fn row_has(t: &[u32], i: usize, name: &[u8]) -> bool
    requires { (2048 ≤ length t.now) × (i < 32) × (length name.now ≤ 32) }
    ensures { result ≡ carries (titles_of t.now) name.now i }
{
    t[TITLES + TITLE * i] != 0
        && same_letters(
            t,
            TITLES + LETTERS + TITLE * i,
            wide(t[TITLES + TITLE * i + 1]),
            name,
        )
}

// The row of a name.
pub fn row_of(t: &[u32], name: &[u8]) -> Option<usize>
    requires { (2048 ≤ length t.now) × (length name.now ≤ 32) }
    ensures is { link_of result ≡ row_of (titles_of t.now) name.now }
    ensures range { IfSome result (λ i. i < 32) }
{
    (0..32).find(|i| row_has(t, *i, name))
}

// Row i becomes that of this name, on the record that the link leads to.
pub fn put_title(t: &mut [u32], i: usize, link: usize, name: &[u8])
    requires { (2048 ≤ length t.old) × (i < 32) × (link ≤ 64) × (length name.now ≤ 32) }
    ensures { t.new ≡ title_put t.old i link name.now }
{
    t[TITLES + TITLE * i] = link as u32;
    t[TITLES + TITLE * i + 1] = name.len() as u32;
    put_letters(t, TITLES + LETTERS + TITLE * i, name);
}

// The record in slot s has one name more.
pub fn count_up(t: &mut [u32], s: usize)
    requires { (2048 ≤ length t.old) × (s < 64) × (get_or t.old (name_cell s) 0 ≤ 32) }
    ensures { t.new ≡ count_up t.old s }
{
    t[NAMES + s] += 1;
}

// The record in slot s has one name less.
// Kept: one function for this and `count_up`, with a sign, would be no plainer.
fn count_down(t: &mut [u32], s: usize)
    requires { (2048 ≤ length t.old) × (s < 64) × (0 < get_or t.old (name_cell s) 0) }
    ensures { t.new ≡ count_down t.old s }
{
    t[NAMES + s] -= 1;
}

// The name of row i, which is in use, is taken off its record: of the row its link alone is stored.
pub fn take_off(t: &mut [u32], i: usize)
    requires { (2048 ≤ length t.old) × (i < 32) × (0 < get_or t.old (title_cell i) 0) × (get_or t.old (title_cell i) 0 ≤ 64) ×
        (0 < get_or t.old (name_cell (pred (get_or t.old (title_cell i) 0))) 0) }
    ensures { t.new ≡ taken_off t.old i }
{
    let link = wide(t[TITLES + TITLE * i]);
    count_down(t, link - 1);
    t[TITLES + TITLE * i] = 0;
}
