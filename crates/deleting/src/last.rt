// The deletion of a record that nothing follows. A block on its pages was born above its pred exactly where the pred has not the same block on
// the same page: rows are compared, and no birth is read.
ghost use Rattle.std.specs.Prelude.{◌≡◌, ◌+◌, ◌<◌, ◌≤◌, length};
ghost use Rattle.std.proofs.lemmas.List.Edits.{sets};
ghost use Rattle.model.specs.Lists.{rows};
ghost use Rattle.model.specs.View.{parent};
ghost use Rattle.model.specs.Check.{own_at};
ghost use Rattle.model.specs.Effects.{pruned};
ghost use Rattle.model.specs.Layout.{view_of};
ghost use Rattle.tables.specs.Ready.{Roomy, Ready};

use choice::bits::Bits;
use geometry::Geometry;
use tables::cells::{BASE, PAGES, PREV, ROW};
use tables::differ::{differing, stretch};
use tables::find::wide;

// The pred of the record in slot s.
fn pred_link(t: &[u32], g: Geometry, s: usize) -> usize
    requires { Ready g t.now × (s < g.records) × (0 < (view_of g t.now).num s) }
    ensures is { result ≡ parent (view_of g t.now) s }
    ensures range { result ≤ g.records }
{
    let prev = wide(t[PREV + s]);
    if prev == 0 {
        return wide(t[BASE + s]);
    }
    prev
}

// The link on page x of slot s.
fn page_at(t: &[u32], g: Geometry, s: usize, x: usize) -> u32
    requires { Roomy g t.now × (s < g.records) × (x < g.pages) }
    ensures { result ≡ (view_of g t.now).page s x }
{
    t[PAGES + ROW * s + x]
}

// Of the n pages of slot s from x on, how many have a block that its pred has not on the same page.
fn count_word(t: &[u32], g: Geometry, s: usize, pred: usize, x: usize, n: usize) -> usize
    requires { Roomy g t.now × (s < g.records) × (pred ≡ parent (view_of g t.now) s) × (pred ≤ g.records) × (n ≤ 32) × (x + n ≤ g.pages) }
    ensures is { result ≡ length (rows (own_at (view_of g t.now) s) x n) }
    ensures range { result ≤ n }
{
    let word = differing(g, t, s, pred, x, n);
    let mut found = 0;
    // Kept: `list_word` walks the same pages; one function for both would take a closure that counts or writes, and be longer than the two.
    for k in Bits::of(word) {
        if page_at(t, g, s, x + k) != 0 {
            found += 1;
        }
    }
    found
}

// How many blocks the deletion of slot s takes off their last page, where nothing follows.
pub fn count_young(t: &[u32], g: Geometry, s: usize) -> usize
    requires { Ready g t.now × (s < g.records) × (0 < (view_of g t.now).num s) }
    ensures { result ≡ length (pruned (view_of g t.now) s g.pages) }
{
    let pred = pred_link(t, g, s);
    let mut count = 0;
    // Kept: `list_young` goes over the same words, for the reason in `count_word`.
    for x in (0..g.pages).step_by(32) {
        count += count_word(t, g, s, pred, x, stretch(g.pages - x));
    }
    count
}

// Of the n pages of slot s from x on, the blocks that its pred has not on the same page, written to `out` from `count` on. Returns how many there are
// with the `count` before them.
fn list_word(
    t: &[u32],
    g: Geometry,
    out: &mut [u32],
    s: usize,
    pred: usize,
    x: usize,
    n: usize,
    count: usize,
) -> usize
    requires { Ready g t.now × (count + length (rows (own_at (view_of g t.now) s) x n) ≤ length out.old) × (s < g.records) ×
        (pred ≡ parent (view_of g t.now) s) × (pred ≤ g.records) × (n ≤ 32) × (x + n ≤ g.pages) × (count ≤ x) }
    ensures count { result ≡ count + length (rows (own_at (view_of g t.now) s) x n) }
    ensures range { result ≤ x + n }
    ensures out { out.new ≡ sets out.old count (rows (own_at (view_of g t.now) s) x n) }
{
    let word = differing(g, t, s, pred, x, n);
    let mut found = count;
    for k in Bits::of(word) {
        let link = page_at(t, g, s, x + k);
        if link != 0 {
            out[found] = link - 1;
            found += 1;
        }
    }
    found
}

// Writes them to `out`, by rising page, and returns how many they are.
pub fn list_young(t: &[u32], g: Geometry, out: &mut [u32], s: usize) -> usize
    requires { Ready g t.now × (length (pruned (view_of g t.now) s g.pages) ≤ length out.old) × (s < g.records) × (0 < (view_of g t.now).num s) }
    ensures count { result ≡ length (pruned (view_of g t.now) s g.pages) }
    ensures out { out.new ≡ sets out.old 0 (pruned (view_of g t.now) s g.pages) }
{
    let pred = pred_link(t, g, s);
    let mut count = 0;
    for x in (0..g.pages).step_by(32) {
        count = list_word(t, g, out, s, pred, x, stretch(g.pages - x), count);
    }
    count
}
