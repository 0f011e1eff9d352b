// The deletion of a record that another follows in its line.
ghost use Rattle.std.specs.Prelude.{◌≡◌, suc, ◌+◌, ◌<◌, ◌≤◌, length, get_or, set};
ghost use Rattle.std.proofs.lemmas.List.Edits.{sets};
ghost use Rattle.model.specs.View.{pred_num};
ghost use Rattle.model.specs.Actions.{do_d, Asks, follower};
ghost use Rattle.model.specs.Effects.{unlinked};
ghost use Rattle.model.specs.Window.{born_above};
ghost use Rattle.model.specs.Layout.{list_cell, length_cell, view_of, state_of, stored};
ghost use Rattle.tables.specs.Ready.{Roomy, Ready};
ghost use Rattle.deleting.specs.Stages.{younger, others, bypassed};

use crate::sort::sort_by_birth;
use geometry::Geometry;
use tables::cells::{LENGTH, PAGES, PREV, ROW, ROWS};
use tables::find::wide;

// How many blocks on the deadlist of slot n were born above p: where n follows a record whose pred has the number p, the deletion of that record takes
// them off their last page.
pub fn count_gone(t: &[u32], g: Geometry, n: usize, p: u32) -> usize
    requires { Ready g t.now × (n < g.records) }
    ensures is { result ≡ born_above (view_of g t.now) p n }
    ensures range { result ≤ 256 }
{
    let len = wide(t[LENGTH + n]);
    let mut count = 0;
    for i in 0..len {
        let b = wide(t[PAGES + ROW * g.records + ROW * n + i]);
        if p < t[PAGES + ROWS * g.records + b] {
            count += 1;
        }
    }
    count
}

// The deadlist of slot n is parted: the blocks born above p are written to `out`, the others move up in their row. Returns how many are written.
fn part_row(t: &mut [u32], g: Geometry, out: &mut [u32], n: usize, p: u32) -> usize
    requires { Ready g t.old × (n < g.records) × (length (younger (view_of g t.old) p ((view_of g t.old).list n)) ≤ length out.old) }
    ensures count { result ≡ length (younger (view_of g t.old) p ((view_of g t.old).list n)) }
    ensures tables { t.new ≡ sets t.old (list_cell g.records n 0)
        (others (view_of g t.old) p ((view_of g t.old).list n)) }
    ensures out { out.new ≡ sets out.old 0 (younger (view_of g t.old) p ((view_of g t.old).list n)) }
{
    let len = wide(t[LENGTH + n]);
    let mut count = 0;
    let mut kept = 0;
    for i in 0..len {
        let b = wide(t[PAGES + ROW * g.records + ROW * n + i]);
        if p < t[PAGES + ROWS * g.records + b] {
            out[count] = b as u32;
            count += 1;
        } else {
            t[PAGES + ROW * g.records + ROW * n + kept] = b as u32;
            kept += 1;
        }
    }
    count
}

// The deadlist of slot s joins that of slot n, after its first `kept` blocks.
fn join_rows(t: &mut [u32], g: Geometry, s: usize, n: usize, kept: usize)
    requires { Roomy g t.old × (s < g.records) × (n < g.records) × (kept + get_or t.old (length_cell s) 0 ≤ 256) × (s ≡ n → ⊥) }
    ensures { t.new ≡ set (sets t.old (list_cell g.records n kept) ((view_of g t.old).list s)) (length_cell n) (kept + length ((view_of g t.old).list s)) }
{
    let more = wide(t[LENGTH + s]);
    let from = PAGES + ROW * g.records + ROW * s;
    t.copy_within(from..from + more, PAGES + ROW * g.records + ROW * n + kept);
    t[LENGTH + n] = (kept + more) as u32;
}

// The record in slot s, which slot n follows, is taken out of its line, with p the number of its pred: the blocks to be queued are written to `out`,
// by rising birth. Returns how many they are.
pub fn delete_next(t: &mut [u32], g: Geometry, out: &mut [u32], s: usize, n: usize, p: u32) -> usize
    requires { Ready g t.old × (length (unlinked (view_of g t.old) s n) ≤ length out.old) × Asks (view_of g t.old) (do_d s) ×
        (follower (view_of g t.old) s ≡ suc n) × (p ≡ pred_num (view_of g t.old) s) }
    ensures count { result ≡ length (unlinked (view_of g t.old) s n) }
    ensures tables { t.new ≡ stored g (bypassed (state_of g t.old) s n) t.old }
    ensures out { out.new ≡ sets out.old 0 (unlinked (view_of g t.old) s n) }
{
    let len = wide(t[LENGTH + n]);
    let count = part_row(t, g, out, n, p);
    sort_by_birth(t, g, out, count);
    join_rows(t, g, s, n, len - count);
    t[PREV + n] = t[PREV + s];
    count
}
