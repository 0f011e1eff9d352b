// A new record in an empty slot: its pages, then its number, its links, its empty deadlist, its window and its count of names; and what B, S and F do with it.
ghost use Rattle.std.specs.Prelude.{◌≡◌, suc, ◌+◌, ◌≤◌, ◌<◌, length, get_or, IfSome};
ghost use Rattle.model.specs.Effects.{begin, seal, fork};
ghost use Rattle.model.specs.State.{bare_notes, passed_notes};
ghost use Rattle.model.specs.Layout.{name_cell, view_of, state_of};
ghost use Rattle.tables.specs.Ready.{Ready};
ghost use Rattle.tables.specs.Links.{link_of};
ghost use Rattle.lines.specs.Growing.{paged, opened, handed, renamed, passed, viewed};

use geometry::Geometry;
use tables::cells::{
    BASE, LAST, LENGTH, NAMES, NUMBER, OPEN, PAGES, PREV, ROW, TITLE, TITLES, WINDOW,
};
use tables::titles::row_with;

// The pages of slot f become those of slot s.
fn copy_pages(t: &mut [u32], g: Geometry, f: usize, s: usize)
    requires { Ready g t.old × (f < g.records) × (s < g.records) × (s ≡ f → ⊥) }
    ensures is { t.new ≡ paged g t.old f (suc s) }
{
    let from = PAGES + ROW * s;
    t.copy_within(from..from + g.pages, PAGES + ROW * f);
}

// The pages of slot f become empty.
fn clear_pages(t: &mut [u32], g: Geometry, f: usize)
    requires { Ready g t.old × (f < g.records) }
    ensures is { t.new ≡ paged g t.old f 0 }
{
    let from = PAGES + ROW * f;
    t[from..from + g.pages].fill(0);
}

// The record in slot f is open, of the next number, with these links, an empty deadlist, this window and this count of names. Gives its number.
fn open_record(t: &mut [u32], f: usize, prev: u32, base: u32, window: u32, names: u32) -> u32
    requires { (f < 64) × (2048 ≤ length t.old) × (get_or t.old 6 0 < 999999) }
    ensures is { t.new ≡ opened t.old f prev base window names }
    ensures number { result ≡ get_or t.old 6 0 + 1 }
{
    let number = t[LAST] + 1;
    t[LAST] = number;
    t[NUMBER + f] = number;
    t[OPEN + f] = 1;
    t[PREV + f] = prev;
    t[BASE + f] = base;
    t[LENGTH + f] = 0;
    t[WINDOW + f] = window;
    t[NAMES + f] = names;
    number
}

// The row goes to slot f; with no row nothing is stored.
fn hand_row(t: &mut [u32], row: Option<usize>, f: usize)
    requires { IfSome row (λ i. i < 32) × (f < 64) × (2048 ≤ length t.old) }
    ensures { t.new ≡ handed t.old (link_of row) f }
{
    if let Some(i) = row {
        t[TITLES + TITLE * i] = (f + 1) as u32;
    }
}

// The name of the record in slot s goes to slot f: an open record has one at most. It stands apart: most records that are sealed have none.
fn move_name(t: &mut [u32], s: usize, f: usize)
    requires { (s < 64) × (f < 64) × (2048 ≤ length t.old) }
    ensures { t.new ≡ renamed t.old s f }
{
    let row = row_with(t, (s + 1) as u32);
    hand_row(t, row, f);
    t[NAMES + s] = 0;
}

// The name of the record in slot s, if it has one, goes to slot f. Gives the count of names that it had, for slot f.
fn pass_names(t: &mut [u32], s: usize, f: usize) -> u32
    requires { (s < 64) × (f < 64) × (2048 ≤ length t.old) }
    ensures is { t.new ≡ passed t.old s f }
    ensures count { result ≡ get_or t.old (name_cell s) 0 }
{
    let names = t[NAMES + s];
    if names == 0 {
        return 0;
    }
    move_name(t, s, f);
    names
}

// B with the empty slot f: a line without a window, its record without a name. Gives the new number, as do the next two.
pub fn begin_at(t: &mut [u32], g: Geometry, f: usize) -> u32
    requires { Ready g t.old × (f < g.records) × (get_or t.old 6 0 < 999999) }
    ensures is { t.new ≡ viewed g t.old (begin (state_of g t.old).view f)
        (bare_notes (state_of g t.old).notes f) }
    ensures number { result ≡ get_or t.old 6 0 + 1 }
{
    clear_pages(t, g, f);
    open_record(t, f, 0, 0, 0, 0)
}

// The seal of S: the record in slot s is sealed, and the new one follows it, with the window of the line and the name of the record, if it has one.
// It is compiled into S, with and without a window.
#[inline(always)]
pub fn seal_at(t: &mut [u32], g: Geometry, f: usize, s: usize) -> u32
    requires { Ready g t.old × (f < g.records) × (get_or t.old 6 0 < 999999) × (s < g.records) × (s ≡ f → ⊥) ×
        (0 < (view_of g t.old).num s) × (0 < (view_of g t.old).is_open s) }
    ensures is { t.new ≡ viewed g t.old (seal (state_of g t.old).view s f)
        (passed_notes (state_of g t.old).notes s f) }
    ensures number { result ≡ get_or t.old 6 0 + 1 }
{
    copy_pages(t, g, f, s);
    t[OPEN + s] = 0;
    let base = t[BASE + s];
    let window = t[WINDOW + s];
    let names = pass_names(t, s, f);
    open_record(t, f, (s + 1) as u32, base, window, names)
}

// F on the record in slot s: it is the base of a new line, without a window, and the new record has no name.
pub fn fork_at(t: &mut [u32], g: Geometry, f: usize, s: usize) -> u32
    requires { Ready g t.old × (f < g.records) × (get_or t.old 6 0 < 999999) × (s < g.records) × (s ≡ f → ⊥) }
    ensures is { t.new ≡ viewed g t.old (fork (state_of g t.old).view s f)
        (bare_notes (state_of g t.old).notes f) }
    ensures number { result ≡ get_or t.old 6 0 + 1 }
{
    copy_pages(t, g, f, s);
    open_record(t, f, 0, (s + 1) as u32, 0, 0)
}
