// D: its refusals, and the two ways of a deletion.
ghost use Rattle.std.specs.Prelude.{◌≡◌, List, ℕ, ◌+◌, ◌<◌, ◌≤◌, length, get_or};
ghost use Rattle.std.proofs.lemmas.List.Edits.{sets};
ghost use Rattle.answer.specs.Reply.{reply_of};
ghost use Rattle.model.specs.Command.{Delete};
ghost use Rattle.geometry.specs.Limits.{blocks};
ghost use Rattle.model.specs.Actions.{do_d, Asks, follower};
ghost use Rattle.model.specs.Held.{deleted};
ghost use Rattle.model.specs.Layout.{view_of, state_of, stored};
ghost use Rattle.tables.specs.Ready.{Roomy, Ready, LinkOf};
ghost use Rattle.tables.specs.Outcome.{replied, tables_left};
ghost use Rattle.deleting.specs.Stages.{unhooked, queued_all, removed};
ghost use Rattle.deleting.specs.Verdict.{verdict_of};

use crate::last::{count_young, list_young};
use crate::next::{count_gone, delete_next};
use answer::{Answer, Refusal};
use geometry::Geometry;
use tables::births::queue_block;
use tables::cells::{LENGTH, NAMES, NUMBER};
use tables::find::{follower_of, is_forked, wide};
use tables::links::pred_number;

// How many blocks the deletion of slot s takes off their last page.
pub fn count_frees(t: &[u32], g: Geometry, s: usize, follower: usize) -> usize
    requires { Ready g t.now × (s < g.records) × (0 < (view_of g t.now).num s) × (follower ≤ g.records) }
    ensures { result ≡ length (deleted (view_of g t.now) s follower) }
{
    if follower == 0 {
        return count_young(t, g, s);
    }
    count_gone(t, g, follower - 1, pred_number(t, g, s))
}

// The slot of the record that a deletion takes and the link of the one that follows, or the first refusal that applies. D and Q ask it; a call of it
// that stands apart costs a line of D a tenth.
#[inline(always)]
pub fn delete_verdict(
    t: &[u32],
    g: Geometry,
    number: u32,
    link: usize,
) -> Result<(usize, usize), Refusal>
    requires { Ready g t.now × LinkOf g t.now number link }
    ensures { result ≡ verdict_of (state_of g t.now) number }
{
    if link == 0 {
        return Err(Refusal::NoSuchRecord);
    }
    let s = link - 1;
    if is_forked(t, g, s) {
        return Err(Refusal::HasFork);
    }
    if 0 < t[NAMES + s] {
        return Err(Refusal::HasName);
    }
    Ok((s, follower_of(t, g, s)))
}

// The record in slot s is taken out of its line, with the link of the one that follows. The blocks that only it had are written to `out`.
fn unhook(g: Geometry, t: &mut [u32], out: &mut [u32], s: usize, link: usize) -> usize
    requires { Ready g t.old × (length (deleted (view_of g t.old) s link) ≤ length out.old) × Asks (view_of g t.old) (do_d s) ×
        (follower (view_of g t.old) s ≡ link) }
    ensures count { result ≡ length (deleted (view_of g t.old) s link) }
    ensures tables { t.new ≡ stored g (unhooked (state_of g t.old) s link) t.old }
    ensures out { out.new ≡ sets out.old 0 (deleted (view_of g t.old) s link) }
{
    if link == 0 {
        return list_young(t, g, out, s);
    }
    let p = pred_number(t, g, s);
    delete_next(t, g, out, s, link - 1, p)
}

// Queues the blocks that are gone, in their order.
fn queue_all(g: Geometry, t: &mut [u32], gone: &[u32])
    requires { Roomy g t.old × ((k : ℕ) → k < length gone.now → get_or gone.now k 0 < blocks g) × (get_or t.old 10 0 + length gone.now ≤ blocks g) }
    ensures { t.new ≡ queued_all g.records (blocks g) t.old gone.now }
{
    for b in gone {
        queue_block(t, g, wide(*b));
    }
}

// Deletes the record in slot s, with the link of the one that follows. The blocks that only it had are queued: no more than it has pages.
pub fn delete_record(g: Geometry, t: &mut [u32], s: usize, link: usize)
    requires { Ready g t.old × Asks (view_of g t.old) (do_d s) × (follower (view_of g t.old) s ≡ link) }
    ensures { t.new ≡ stored g (removed (state_of g t.old) s link) t.old }
{
    let mut gone = [0u32; 256];
    let count = unhook(g, t, &mut gone, s, link);
    queue_all(g, t, &gone[..count]);
    t[LENGTH + s] = 0;
    t[NUMBER + s] = 0;
}

// D on the record of that number, with its link: it leaves the store, and the blocks that only it had are queued. It gives no numbers, whatever a result
// buffer holds.
pub fn delete(g: Geometry, t: &mut [u32], number: u32, link: usize) -> Answer
    requires { Ready g t.old × LinkOf g t.old number link }
    ensures reply { (out : List ℕ) → reply_of result out ≡ replied g t.old (Delete number) }
    ensures tables { t.new ≡ tables_left g t.old (Delete number) }
{
    let (s, follower) = delete_verdict(t, g, number, link)?;
    delete_record(g, t, s, follower);
    Ok(0)
}
