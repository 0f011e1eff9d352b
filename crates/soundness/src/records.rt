// The records: their numbers and links, two of them at a time, and the windows of their lines.
ghost use Rattle.std.specs.Prelude.{◌≡◌, ◌<◌, not, ◌&&◌, ◌||◌, ◌==◌, nat_le, nat_lt};
ghost use Rattle.model.specs.Table.{all};
ghost use Rattle.model.specs.Check.{imp, prev?, base?, two?};
ghost use Rattle.model.specs.Memory.{windows?};
ghost use Rattle.tables.specs.Lent.{view_in, state_in};
ghost use Rattle.soundness.specs.Pairs.{linked_to?};

use tables::cells::{BASE, LAST, NUMBER, OPEN, PREV, WINDOW};
use tables::lent::Tables;

// The record behind a link, if there is one, is in the store, sealed, and older than the one in slot s.
fn link_fits(tables: &Tables, s: usize, link: usize) -> bool
    ensures { result ≡ base? (view_in tables.now) s link }
{
    if link == 0 {
        return true;
    }
    let p = link - 1;
    let older = tables.column_number(NUMBER, p);
    let opened = tables.column_number(OPEN, p);
    let number = tables.column_number(NUMBER, s);
    (0 < older) & (opened == 0) & (older < number)
}

// The base of the line of the record in slot s.
fn base_fits(tables: &Tables, s: usize) -> bool
    ensures { result ≡ base? (view_in tables.now) s ((view_in tables.now).base s) }
{
    let link = tables.column_number(BASE, s);
    link_fits(tables, s, link)
}

// The record before the one in slot s in its line: it has the same base.
fn prev_fits(tables: &Tables, s: usize) -> bool
    ensures { result ≡ prev? (view_in tables.now) s ((view_in tables.now).prev s) }
{
    let link = tables.column_number(PREV, s);
    if link == 0 {
        return true;
    }
    let older = link_fits(tables, s, link);
    let before = tables.column_number(BASE, link - 1);
    let base = tables.column_number(BASE, s);
    older & (before == base)
}

// Two slots, the first in use: if the second is too, their numbers differ and they do not follow the same record.
fn two_fit(number: u32, prev: u32, other: u32, others: u32) -> bool
    ensures { result ≡ imp (nat_lt 0 other) (not (number == other) && not (nat_lt 0 prev && prev == others)) }
{
    let apart = number != other;
    let one = !((0 < prev) & (prev == others));
    !(0 < other) | (apart & one)
}

// The record in slot s beside those in the slots before: two are compared once. It looks at all, several in one instruction.
fn others_fit(tables: &Tables, s: usize) -> bool
    requires { s < tables.now.g.records }
    ensures { result ≡ all s (λ k. imp (nat_lt 0 ((view_in tables.now).num k)) (two? (view_in tables.now) s k)) }
{
    let t = tables.cells;
    let number = t[NUMBER + s];
    let prev = t[PREV + s];
    let mut fit = true;
    for k in 0..s {
        fit &= two_fit(number, prev, t[NUMBER + k], t[PREV + k]);
    }
    fit
}

// The record in slot s, if there is one.
fn record_fits(tables: &Tables, s: usize) -> bool
    requires { s < tables.now.g.records }
    ensures { result ≡ imp (nat_lt 0 ((view_in tables.now).num s)) (linked_to? (view_in tables.now) s s) }
{
    let number = tables.column_number(NUMBER, s);
    if number == 0 {
        return true;
    }
    let given = number <= tables.header_number(LAST);
    let others = others_fit(tables, s);
    let prev = prev_fits(tables, s);
    let base = base_fits(tables, s);
    given & others & prev & base
}

// All records.
pub fn records_fit(tables: &Tables) -> bool
    ensures { result ≡ all tables.now.g.records (λ s. imp (nat_lt 0 ((view_in tables.now).num s)) (linked_to? (view_in tables.now) s s)) }
{
    (0..tables.g.records).all(|s| record_fits(tables, s))
}

// The window of one slot: of an open record it is at most 62.
fn window_fits(number: u32, opened: u32, window: u32) -> bool
    ensures { result ≡ (not (nat_lt 0 number && nat_lt 0 opened) || nat_le window 62) }
{
    !((0 < number) & (0 < opened)) | (window <= 62)
}

// All windows. It looks at all slots, several in one instruction.
pub fn windows_fit(tables: &Tables) -> bool
    ensures { result ≡ windows? (view_in tables.now) (state_in tables.now).notes }
{
    let t = tables.cells;
    let mut fit = true;
    for s in 0..tables.g.records {
        fit &= window_fits(t[NUMBER + s], t[OPEN + s], t[WINDOW + s]);
    }
    fit
}
