// Q: what a deletion would queue, worked out without doing it.
ghost use Rattle.std.specs.Prelude.{◌≡◌, ℕ, ◌<◌, ◌≤◌, length, get_or, take};
ghost use Rattle.std.proofs.lemmas.List.Edits.{sets};
ghost use Rattle.answer.specs.Reply.{reply_of};
ghost use Rattle.geometry.specs.Limits.{blocks};
ghost use Rattle.model.specs.Command.{Estimate};
ghost use Rattle.model.specs.View.{pred_num};
ghost use Rattle.model.specs.Held.{shards_above, shards_freed};
ghost use Rattle.model.specs.Sorted.{stretches};
ghost use Rattle.model.specs.Layout.{view_of};
ghost use Rattle.tables.specs.Ready.{Roomy, Ready, OutLong, LinkOf};
ghost use Rattle.tables.specs.Outcome.{replied, out_left};
ghost use Rattle.deleting.specs.Stages.{younger};

use crate::delete::{count_frees, delete_verdict};
use crate::sort::sort_by_birth;
use answer::Answer;
use geometry::Geometry;
use tables::cells::{LENGTH, PAGES, ROW, ROWS};
use tables::find::wide;
use tables::links::pred_number;

// The blocks on the deadlist of slot n that were born above p, written to `young`. Returns how many they are.
fn list_gone(t: &[u32], g: Geometry, young: &mut [u32], n: usize, p: u32) -> usize
    requires { Ready g t.now × (n < g.records) × (256 ≤ length young.old) }
    ensures count { result ≡ length (younger (view_of g t.now) p ((view_of g t.now).list n)) }
    ensures range { result ≤ 256 }
    ensures young { young.new ≡ sets young.old 0 (younger (view_of g t.now) p ((view_of g t.now).list n)) }
{
    let len = wide(t[LENGTH + n]);
    let mut count = 0;
    // Kept: `count_gone` walks the same blocks; one iterator for both would be longer than the two loops.
    for i in 0..len {
        let b = wide(t[PAGES + ROW * g.records + ROW * n + i]);
        if p < t[PAGES + ROWS * g.records + b] {
            young[count] = b as u32;
            count += 1;
        }
    }
    count
}

// How many stretches of one birth the first n blocks of `young` have, after a block born in p.
fn count_stretches(t: &[u32], g: Geometry, young: &[u32], n: usize, p: u32) -> usize
    requires { Roomy g t.now × (n ≤ 256) × (n ≤ length young.now) × ((k : ℕ) → k < n → get_or young.now k 0 < blocks g) }
    ensures is { result ≡ stretches (view_of g t.now).birth p (take n young.now) }
    ensures range { result ≤ 256 }
{
    let mut count = 0;
    let mut last = p;
    for i in 0..n {
        let birth = t[PAGES + ROWS * g.records + wide(young[i])];
        if birth != last {
            count += 1;
            last = birth;
        }
    }
    count
}

// How many shards of the record in slot n, which follows slot s, the deletion of s queues. The blocks are sorted as the deletion sorts them: a shard
// begins where a birth is met for the first time.
fn count_shards(t: &[u32], g: Geometry, s: usize, n: usize) -> usize
    requires { Ready g t.now × (s < g.records) × (0 < (view_of g t.now).num s) × (n < g.records) }
    ensures is { result ≡ shards_above (view_of g t.now) n (pred_num (view_of g t.now) s) }
    ensures range { result ≤ 256 }
{
    let p = pred_number(t, g, s);
    let mut young = [0u32; 256];
    let count = list_gone(t, g, &mut young, n, p);
    sort_by_birth(t, g, &mut young, count);
    count_stretches(t, g, &young, count, p)
}

// The same by the link of the record that follows: none where nothing does.
fn shards_of(t: &[u32], g: Geometry, s: usize, follower: usize) -> usize
    requires { Ready g t.now × (s < g.records) × (0 < (view_of g t.now).num s) × (follower ≤ g.records) }
    ensures is { result ≡ shards_freed (view_of g t.now) s follower }
    ensures range { result ≤ 256 }
{
    if follower == 0 {
        return 0;
    }
    count_shards(t, g, s, follower - 1)
}

// Q on the record of that number, with its link: the numbers of the blocks that D would queue, of the log words that it would write (none), and of the
// shards.
pub fn estimate(g: Geometry, t: &[u32], out: &mut [u32], number: u32, link: usize) -> Answer
    requires { Ready g t.now × OutLong g out.old × LinkOf g t.now number link }
    ensures reply { reply_of result out.new ≡ replied g t.now (Estimate number) }
    ensures out { out.new ≡ out_left g t.now out.old (Estimate number) }
{
    let (s, follower) = delete_verdict(t, g, number, link)?;
    out[0] = count_frees(t, g, s, follower) as u32;
    out[1] = 0;
    out[2] = shards_of(t, g, s, follower) as u32;
    Ok(3)
}
