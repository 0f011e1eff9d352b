// The calls on the log and the free list: Y, C, L.
#![tactic(auto)]

ghost use Rattle.std.specs.Prelude.{◌≡◌, List, ℕ, ◌+◌, ◌-◌, ◌*◌, ◌≤◌, not, length};
ghost use Rattle.std.proofs.lemmas.List.Edits.{sets};
ghost use Rattle.answer.specs.Reply.{reply_of};
ghost use Rattle.choice.specs.Words.{free_in};
ghost use Rattle.alloc_log.specs.Word.{write_at, bytes_of};
ghost use Rattle.alloc_log.specs.Runs.{ending};
ghost use Rattle.alloc_log.specs.Compress.{compressed};
ghost use Rattle.model.specs.Calls.{pairs};
ghost use Rattle.model.specs.Command.{Barrier, Compress, FreeList};
ghost use Rattle.tables.specs.Ready.{Ready, OutLong, LogLong};
ghost use Rattle.tables.specs.Outcome.{replied, tables_left, log_left, out_left};

use alloc_log::compress::put_run;
use alloc_log::word::append;
use answer::{Answer, Refusal};
use choice::{first_given, first_kept};
use geometry::Geometry;
use tables::births::release;
use tables::cells::{FREE, USED};
use tables::find::wide;

// Y: a barrier after the last word; no block waits from now on. It gives no numbers, whatever a result buffer holds.
pub fn barrier(g: Geometry, t: &mut [u32], log: &mut [u8]) -> Answer
    requires { Ready g t.old × LogLong g log.old }
    ensures reply { (out : List ℕ) → reply_of result out ≡ replied g t.old Barrier }
    ensures tables { t.new ≡ tables_left g t.old Barrier }
    ensures log { log.new ≡ log_left g t.old log.old Barrier }
{
    let used = wide(t[USED]);
    if g.words - used < 1 {
        return Err(Refusal::LogFull);
    }
    append(log, 8 * used, 3);
    release(t, g);
    t[USED] = (used + 1) as u32;
    Ok(0)
}

// Writes the compressed log of the blocks that may not be given at the start of a log, and returns how many bytes it has. It
// walks the free words: a run is what stands from the next block that may not be given to the next that may, or to the
// arena's edge.
fn put_kept(log: &mut [u8], words: &[u32], arenas: usize, per: usize) -> usize
    requires { (arenas * per ≤ 2048) × (length words.now ≡ 64) × (8 * (arenas * per) + 8 ≤ length log.old) }
    ensures count { result ≡ 8 * length (compressed arenas per (λ b. not (free_in words.now b))) }
    ensures bytes { log.new ≡ write_at log.old 0 (bytes_of (compressed arenas per (λ b. not (free_in words.now b)))) }
{
    let mut used = 0;
    for arena in 0..arenas {
        let mut b = arena * per;
        let edge = b + per;
        // Kept: where a turn ends is known only after it, which no range tells.
        while b < edge {
            let from = first_kept(words, b, edge);
            b = first_given(words, from, edge);
            used = put_run(log, used, from, b - from);
        }
    }
    append(log, used, 3)
}

// C: the log written again, compressed. No block waits from now on: what may not be given is then what is held.
pub fn compress_log(g: Geometry, t: &mut [u32], log: &mut [u8], out: &mut [u32]) -> Answer
    requires { Ready g t.old × LogLong g log.old × OutLong g out.old }
    ensures reply { reply_of result out.new ≡ replied g t.old Compress }
    ensures tables { t.new ≡ tables_left g t.old Compress }
    ensures log { log.new ≡ log_left g t.old log.old Compress }
    ensures out { out.new ≡ out_left g t.old out.old Compress }
{
    release(t, g);
    let bytes = put_kept(log, &t[FREE..FREE + 64], g.arenas, g.per);
    t[USED] = (bytes / 8) as u32;
    out[0] = (bytes / 8) as u32;
    Ok(1)
}

// Writes the run of the blocks from lo on and below hi, where there are any, after the first `at` numbers.
fn put_pair(out: &mut [u32], at: usize, lo: usize, hi: usize) -> usize
    requires { (at + 2 ≤ length out.old) × (at ≤ 4096) × (lo ≤ hi) × (hi ≤ 2048) }
    ensures count { result ≡ at + length (pairs (ending hi (hi - lo))) }
    ensures numbers { out.new ≡ sets out.old at (pairs (ending hi (hi - lo))) }
{
    if lo == hi {
        return at;
    }
    out[at] = lo as u32;
    out[at + 1] = (hi - lo) as u32;
    at + 2
}

// L: the free blocks as pairs of offset and length, in longest runs inside arenas. It walks the free words: a run is what
// stands from the next block that may be given to the next that may not, or to the arena's edge.
pub fn free_list(g: Geometry, t: &[u32], out: &mut [u32]) -> Answer
    requires { Ready g t.now × OutLong g out.old }
    ensures reply { reply_of result out.new ≡ replied g t.now FreeList }
    ensures out { out.new ≡ out_left g t.now out.old FreeList }
{
    let words = &t[FREE..FREE + 64];
    let mut at = 0;
    for arena in 0..g.arenas {
        let mut b = arena * g.per;
        let edge = b + g.per;
        // Kept: `put_kept` walks the runs between these; one walk for both would take two searches and the writing as closures, and be longer.
        while b < edge {
            let from = first_given(words, b, edge);
            b = first_kept(words, from, edge);
            at = put_pair(out, at, from, b);
        }
    }
    Ok(at)
}
