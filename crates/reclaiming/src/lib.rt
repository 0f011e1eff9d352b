// T: the first blocks of the queue are freed. They are listed in the result, logged, freed and taken out of the queue, one stage after the other.
#![tactic(auto)]

ghost use Rattle.std.specs.Prelude.{◌≡◌, map, ℕ, ◌+◌, ◌*◌, ◌<◌, ◌≤◌, length, get_or, set, take};
ghost use Rattle.std.proofs.lemmas.List.Edits.{sets};
ghost use Rattle.answer.specs.Reply.{reply_of};
ghost use Rattle.geometry.specs.Limits.{blocks};
ghost use Rattle.alloc_log.specs.Word.{write_at, bytes_of, released};
ghost use Rattle.model.specs.Command.{Reclaim};
ghost use Rattle.model.specs.Layout.{state_of};
ghost use Rattle.model.specs.Results.{paired, blocks_in};
ghost use Rattle.tables.specs.Ready.{Roomy, Ready, OutLong, LogLong};
ghost use Rattle.tables.specs.Outcome.{replied, tables_left, log_left, out_left};
ghost use Rattle.reclaiming.specs.Stages.{turn, ended_all, shortened};

use alloc_log::word::append;
use answer::{Answer, Refusal};
use geometry::Geometry;
use tables::births::{queue_at, queue_births_at, wait_block};
use tables::cells::{QUEUED, USED};
use tables::find::wide;

// How many blocks a turn of k frees: the smaller of k and the queue's length.
fn turn_of(t: &[u32], k: usize) -> usize
    requires { 11 ≤ length t.now }
    ensures { result ≡ turn t.now k }
{
    k.min(wide(t[QUEUED]))
}

// Writes the first n blocks of the queue to `out`, each with its birth after it.
fn list_queued(t: &[u32], g: Geometry, out: &mut [u32], n: usize)
    requires { Ready g t.now × (n ≤ get_or t.now 10 0) × (2 * n ≤ length out.old) }
    ensures { out.new ≡ sets out.old 0 (paired (state_of g t.now).queue.birth
        (take n (state_of g t.now).queue.list)) }
{
    for i in 0..n {
        let b = t[queue_at(g) + i];
        out[2 * i] = b;
        out[2 * i + 1] = t[queue_births_at(g) + wide(b)];
    }
}

// Writes the words of the first n blocks of `out`, each with its birth after it: they are freed in this order, after the words in use.
fn log_frees(t: &mut [u32], log: &mut [u8], out: &[u32], n: usize)
    requires { (10 ≤ length t.old) × (2 * n ≤ length out.now) × (8 * (get_or t.old 9 0 + n) ≤ length log.old)
        × (get_or t.old 9 0 + n ≤ 8192) }
    ensures tables { t.new ≡ set t.old 9 (get_or t.old 9 0 + n) }
    ensures log { log.new ≡ write_at log.old (8 * get_or t.old 9 0)
        (bytes_of (map released (blocks_in (take (2 * n) out.now)))) }
{
    let used = wide(t[USED]);
    for i in 0..n {
        append(log, 8 * (used + i), (wide(out[2 * i]) * 16384 + 2) as u64);
    }
    t[USED] = (used + n) as u32;
}

// Frees the first n blocks of `out`, each with its birth after it: they have no birth in the queue any more, and wait in this order.
fn free_queued(t: &mut [u32], g: Geometry, out: &[u32], n: usize)
    requires { Roomy g t.old × (2 * n ≤ length out.now) × ((k : ℕ) → k < n → get_or out.now (2 * k) 0 < blocks g)
        × (get_or t.old 11 0 + n ≤ blocks g) }
    ensures { t.new ≡ ended_all g.records (blocks g) t.old (blocks_in (take (2 * n) out.now)) }
{
    for i in 0..n {
        let b = wide(out[2 * i]);
        t[queue_births_at(g) + b] = 0;
        wait_block(t, g, b);
    }
}

// Takes the first n blocks out of the queue: the others move down, from the front on.
fn shorten_queue(t: &mut [u32], g: Geometry, n: usize)
    requires { Roomy g t.old × (n ≤ get_or t.old 10 0) × (get_or t.old 10 0 ≤ blocks g) }
    ensures { t.new ≡ shortened g.records (blocks g) t.old n }
{
    let at = queue_at(g);
    let left = wide(t[QUEUED]) - n;
    t.copy_within(at + n..at + n + left, at);
    t[QUEUED] = left as u32;
}

// T: the first k blocks of the queue are freed, or all of them where there are fewer. The numbers of the result are these blocks, each with its birth
// after it.
pub fn reclaim(g: Geometry, t: &mut [u32], log: &mut [u8], out: &mut [u32], k: u32) -> Answer
    requires { Ready g t.old × LogLong g log.old × OutLong g out.old }
    ensures reply { reply_of result out.new ≡ replied g t.old (Reclaim k) }
    ensures tables { t.new ≡ tables_left g t.old (Reclaim k) }
    ensures log { log.new ≡ log_left g t.old log.old (Reclaim k) }
    ensures out { out.new ≡ out_left g t.old out.old (Reclaim k) }
{
    if !(1..=64).contains(&k) {
        return Err(Refusal::BadTurn);
    }
    let n = turn_of(t, wide(k));
    if g.words - wide(t[USED]) < n {
        return Err(Refusal::LogFull);
    }
    list_queued(t, g, out, n);
    log_frees(t, log, out, n);
    free_queued(t, g, out, n);
    shorten_queue(t, g, n);
    Ok(2 * n)
}
