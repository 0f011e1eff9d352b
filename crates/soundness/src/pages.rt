// The pages of a record against its pred's: a page that differs has a block of the record's own; what was there before it may be gone.
ghost use Rattle.std.specs.Prelude.{◌≡◌, ℕ, suc, ◌+◌, ◌-◌, ◌*◌, ◌<◌, ◌≤◌, true, false, ◌&&◌, length};
ghost use Rattle.std.specs.Prelude.{if◌then◌else◌, nat_lt, slice_index};
ghost use Rattle.model.specs.Table.{all};
ghost use Rattle.model.specs.Lists.{on_page};
ghost use Rattle.model.specs.View.{base_num, page_of};
ghost use Rattle.model.specs.Check.{marks_of, once?, page?, like?, fits?, list?, empty?, all_own, owns};
ghost use Rattle.model.specs.Stamps.{stamped};
ghost use Rattle.choice.specs.Words.{word_of};
ghost use Rattle.tables.specs.Rows.{differs};
ghost use Rattle.tables.specs.Lent.{view_in};
ghost use Rattle.soundness.specs.Pages.{reached, kin_of, younger, seen, Walked, RowWords, slot_fits};

use crate::lists::list_fits;
use choice::bits::Bits;
use geometry::Geometry;
use std::num::wrapping_sub_usize;
use tables::cells::{BASE, LENGTH, NUMBER, PAGES, PREV, ROW, ROWS};
use tables::differ::{differing, differing_whole};
use tables::find::wide;
use tables::lent::Tables;
use tables::links::number_behind;

// What the walk over a record's pages asks of the record each time: its number, a link to its pred, the pred's number, whether a record is before
// it in its line, and the number of its line's base.
#[derive(Clone, Copy)]
pub struct Kin {
    pub number: usize,
    pub pred: usize,
    pub older: usize,
    pub listing: bool,
    pub root: usize,
}

// A link of a stranger's tables, or 0 where it is none to a slot.
fn reach(g: Geometry, link: usize) -> usize
    ensures is { result ≡ reached g.records link }
    ensures range { result ≤ g.records }
{
    if link <= g.records { link } else { 0 }
}

// Page x of the record behind a link.
fn page_behind(tables: &Tables, link: usize, x: usize) -> usize
    requires { (link ≤ tables.now.g.records) × (x < tables.now.g.pages) }
    ensures { result ≡ page_of (view_in tables.now) link x }
{
    if link == 0 {
        return 0;
    }
    wide(tables.cells[PAGES + ROW * (link - 1) + x])
}

// What the walk over the pages of the record in slot s asks of it.
fn kin_of(tables: &Tables, s: usize) -> Kin
    requires { s < tables.now.g.records }
    ensures { result ≡ kin_of (view_in tables.now) s }
{
    let Tables { g, cells: t } = *tables;
    let prev = wide(t[PREV + s]);
    let base = reach(g, wide(t[BASE + s]));
    let pred = if prev == 0 { base } else { reach(g, prev) };
    Kin {
        number: wide(t[NUMBER + s]),
        pred,
        older: wide(number_behind(t, g, pred)),
        listing: prev != 0,
        root: wide(number_behind(t, g, base)),
    }
}

// A link on a page of the record that the pred's same page has not: a block born after the pred and at the latest in the record, and no other
// record's own. It is marked.
fn page_fits(tables: &Tables, own: &mut [u8; 2048], s: usize, kin: Kin, link: usize) -> bool
    requires { (kin ≡ kin_of (view_in tables.now) s) × (length own.old ≡ 2048) }
    ensures is { result ≡ (fits? (view_in tables.now) s link && once? (seen own.old) (on_page link)) }
    ensures marked { result ≡ true → seen own.new ≡ marks_of (seen own.old) (on_page link) }
    ensures size { length own.new ≡ 2048 }
{
    let g = tables.g;
    if link == 0 {
        return true;
    }
    if g.arenas * g.per < link {
        return false;
    }
    let birth = wide(tables.cells[PAGES + ROWS * g.records + (link - 1)]);
    if birth <= kin.older {
        return false;
    }
    if kin.number < birth {
        return false;
    }
    if own[link - 1] != 0 {
        return false;
    }
    own[link - 1] = 1;
    true
}

// A link on a page of the record before, which this record's same page has not: a block younger than the line's base is gone. It gets the stamp of
// slot s. Returns how many are gone, 1 or 0.
fn mark_gone(tables: &Tables, gone: &mut [u8; 2048], s: usize, root: usize, link: usize) -> usize
    requires { (s < tables.now.g.records) × (root ≡ base_num (view_in tables.now) s) × (length gone.old ≡ 2048) }
    ensures count { result ≡ length (younger (view_in tables.now) s link) }
    ensures stamped { seen gone.new ≡ stamped (suc s) (seen gone.old) (younger (view_in tables.now) s link) }
    ensures size { (result ≤ 1) × (length gone.new ≡ 2048) }
{
    let g = tables.g;
    let b = wrapping_sub_usize(link, 1);
    if g.arenas * g.per <= b {
        return 0;
    }
    if wide(tables.cells[PAGES + ROWS * g.records + b]) <= root {
        return 0;
    }
    gone[b] = (s + 1) as u8;
    1
}

// Page x of slot s, which differs from the pred's. A walk returns how many blocks are gone, on top of `count`, or `None` at a page that does not fit.
fn page_walk(
    tables: &Tables,
    own: &mut [u8; 2048],
    gone: &mut [u8; 2048],
    s: usize,
    kin: Kin,
    x: usize,
    count: usize,
) -> Option<usize>
    requires { (s < tables.now.g.records) × (x < tables.now.g.pages) × (count ≤ x) × (kin ≡ kin_of (view_in tables.now) s) ×
        (like? (view_in tables.now) s x ≡ false) × (length own.old ≡ 2048) × (length gone.old ≡ 2048) }
    ensures { Walked (view_in tables.now) s own.old gone.old count x result own.new gone.new (x + 1) }
{
    let link = wide(tables.cells[PAGES + ROW * s + x]);
    if !page_fits(tables, own, s, kin, link) {
        return None;
    }
    if kin.listing {
        let was = page_behind(tables, kin.pred, x);
        let more = mark_gone(tables, gone, s, kin.root, was);
        return Some(count + more);
    }
    Some(count)
}

// The n pages of slot s from x on, by the bits of their word.
fn word_walk(
    tables: &Tables,
    own: &mut [u8; 2048],
    gone: &mut [u8; 2048],
    s: usize,
    kin: Kin,
    x: usize,
    n: usize,
    word: u32,
    count: usize,
) -> Option<usize>
    requires { (s < tables.now.g.records) × (n ≤ 32) × (x + n ≤ tables.now.g.pages) × (count ≤ x) × (kin ≡ kin_of (view_in tables.now) s) ×
        (length own.old ≡ 2048) × (length gone.old ≡ 2048) × (word ≡ word_of (differs (view_in tables.now) s kin.pred) x n) }
    ensures { Walked (view_in tables.now) s own.old gone.old count x result own.new gone.new (x + n) }
{
    let mut found = count;
    for k in Bits::of(word) {
        found = page_walk(tables, own, gone, s, kin, x + k, found)?;
    }
    Some(found)
}

// The words of a row: where the pages of slot s differ from those of the record that the link names.
fn row_words(tables: &Tables, s: usize, link: usize) -> [u32; 8]
    requires { (s < tables.now.g.records) × (link ≤ tables.now.g.records) }
    ensures { RowWords (view_in tables.now) s link result }
{
    let g = tables.g;
    let mut words = [0u32; 8];
    let whole = g.pages / 32;
    for k in 0..whole {
        words[k] = differing_whole(g, tables.cells, s, link, 32 * k);
    }
    if 32 * whole < g.pages {
        words[whole] = differing(g, tables.cells, s, link, 32 * whole, g.pages - 32 * whole);
    }
    words
}

// All pages of slot s. The words stand ready before the first page is looked at: no page waits for the word of the next.
fn row_walk(tables: &Tables, own: &mut [u8; 2048], gone: &mut [u8; 2048], s: usize) -> Option<usize>
    requires { (s < tables.now.g.records) × (length own.old ≡ 2048) × (length gone.old ≡ 2048) }
    ensures { Walked (view_in tables.now) s own.old gone.old 0 0 result own.new gone.new tables.now.g.pages }
{
    let g = tables.g;
    let kin = kin_of(tables, s);
    let words = row_words(tables, s, kin.pred);
    let mut found = 0;
    for k in 0..g.pages.div_ceil(32) {
        let n = (g.pages - 32 * k).min(32);
        found = word_walk(tables, own, gone, s, kin, 32 * k, n, words[k], found)?;
    }
    Some(found)
}

// The pages and the deadlist of slot s, or that an empty slot has no deadlist.
fn slot_fits(tables: &Tables, own: &mut [u8; 2048], gone: &mut [u8; 2048], s: usize) -> bool
    requires { (s < tables.now.g.records) × (length own.old ≡ 2048) × (length gone.old ≡ 2048) × ((b : ℕ) → seen gone.old b ≤ s) }
    ensures is { result ≡ (slot_fits (view_in tables.now) s && once? (seen own.old) (owns (view_in tables.now) s)) }
    ensures marked { result ≡ true → seen own.new ≡ marks_of (seen own.old) (owns (view_in tables.now) s) }
    ensures stamps { (length own.new ≡ 2048) × (length gone.new ≡ 2048) × (result ≡ true → (b : ℕ) → seen gone.new b ≤ s + 1) }
{
    if tables.cells[NUMBER + s] == 0 {
        return tables.cells[LENGTH + s] == 0;
    }
    let Some(n) = row_walk(tables, own, gone, s) else {
        return false;
    };
    list_fits(tables, gone, s, n)
}

// The pages and deadlists of all slots. Marks in `own` each block that is some record's own: on a page of it and not on the pred's same page.
pub fn pages_fit(tables: &Tables, own: &mut [u8; 2048]) -> bool
    requires { length own.old ≡ 2048 }
    ensures passes { result ≡ (all tables.now.g.records (λ s. (if nat_lt 0 ((view_in tables.now).num s) then
        all tables.now.g.pages (page? (view_in tables.now) s) && list? (view_in tables.now) s else empty? (view_in tables.now) s)) &&
        once? (λ b. slice_index own.old b) (all_own (view_in tables.now))) }
    ensures marked { result ≡ true → (b : ℕ) → slice_index own.new b ≡ marks_of (λ b. slice_index own.old b) (all_own (view_in tables.now)) b }
    ensures size { length own.new ≡ 2048 }
{
    let mut gone = [0u8; 2048];
    for s in 0..tables.g.records {
        if !slot_fits(tables, own, &mut gone, s) {
            return false;
        }
    }
    true
}
