// Reading, comparing and compressing logs, for disk tools: any numbers, any bytes.
ghost use Rattle.std.specs.Prelude.{◌≡◌, ℕ, ◌*◌, ◌≤◌, Bool, length};
ghost use Rattle.std.proofs.lemmas.List.Edits.{sets};
ghost use Rattle.answer.specs.Reply.{reply_of};
ghost use Rattle.geometry.specs.Limits.{asked};
ghost use Rattle.alloc_log.specs.Word.{words};
ghost use Rattle.alloc_log.specs.Marks.{held_blocks};
ghost use Rattle.alloc_log.specs.Settled.{up_to_barrier};
ghost use Rattle.alloc_log.specs.Tool.{read_reply, read_out, verdict_of, compare_verdict, compact_reply_of, compact_reply, compact_out};

use crate::compress::compress;
use crate::read::read_log;
use crate::word::get_word;
use answer::{Answer, Refusal};
use geometry::{Geometry, Numbers};

// Writes the held ones of the first n blocks to `out`, rising, and returns how many there are.
fn list_held(marks: &[u8; 2048], n: usize, out: &mut [u32]) -> usize
    requires { (n ≤ 2048) × (n ≤ length out.old) }
    ensures { (result ≡ length (held_blocks marks.now n)) × (out.new ≡ sets out.old 0 (held_blocks marks.now n)) }
{
    let mut count = 0;
    for b in 0..n {
        if marks[b] != 0 {
            out[count] = b as u32;
            count += 1;
        }
    }
    count
}

// How many bytes of a log are settled: those up to its last whole word equal to 3, found from its end.
fn settled_end(log: &[u8]) -> usize
    ensures { (result ≡ 8 * up_to_barrier (words log.now)) × (result ≤ length log.now) }
{
    for i in (0..log.len() / 8).rev() {
        if get_word(log, 8 * i) == 3 {
            return 8 * i + 8;
        }
    }
    0
}

// Reads what is settled of a log of any length. `Ok(n)`: the first n numbers of `out` are the held blocks, rising. Refusals 2, 3, 7.
pub fn read_held(numbers: Numbers, log: &[u8], out: &mut [u32]) -> Answer
    ensures reply { reply_of result out.new ≡ read_reply (asked numbers) log.now out.old }
    ensures out { out.new ≡ read_out (asked numbers) log.now out.old }
{
    let g = Geometry::new(numbers)?;
    let blocks = g.arenas * g.per;
    if out.len() < 2 * blocks + 64 {
        return Err(Refusal::TooShort);
    }
    let end = settled_end(log);
    let Some(marks) = read_log(&log[..end], g.arenas, g.per) else {
        return Err(Refusal::NoLog);
    };
    Ok(list_held(&marks, blocks, out))
}

// Whether two logs of any length are alike, by the blocks that they hold at their end. Refusals 2, 7.
pub fn compare(numbers: Numbers, first: &[u8], second: &[u8]) -> Result<bool, Refusal>
    ensures { verdict_of result ≡ compare_verdict (asked numbers) first.now second.now }
{
    let g = Geometry::new(numbers)?;
    let Some(one) = read_log(first, g.arenas, g.per) else {
        return Err(Refusal::NoLog);
    };
    let Some(two) = read_log(second, g.arenas, g.per) else {
        return Err(Refusal::NoLog);
    };
    let blocks = g.arenas * g.per;
    Ok(one[..blocks] == two[..blocks])
}

// Writes a log of any length again, compressed, at the start of `out`, and returns how many words it has. Refusals 2, 3 (`out` shorter than the log words), 7.
pub fn compact(numbers: Numbers, log: &[u8], out: &mut [u8]) -> Result<usize, Refusal>
    ensures reply { compact_reply_of result ≡ compact_reply (asked numbers) log.now out.old }
    ensures out { out.new ≡ compact_out (asked numbers) log.now out.old }
{
    let g = Geometry::new(numbers)?;
    if out.len() < 8 * g.words {
        return Err(Refusal::TooShort);
    }
    let Some(marks) = read_log(log, g.arenas, g.per) else {
        return Err(Refusal::NoLog);
    };
    let bytes = compress(out, &marks, g.arenas, g.per);
    Ok(bytes / 8)
}
