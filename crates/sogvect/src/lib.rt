// The store for callers in C and Rust. Any six numbers, any memory, any arguments. Each function answers 0 where the call was done, else the number of
// the refusal; `count` becomes the number of the result's numbers, at the start of `out`. A refusal leaves `count` and all lent memory as they were.
#![tactic(auto)]

ghost use Rattle.std.specs.Prelude.{◌≡◌};
ghost use Rattle.geometry.specs.Limits.{geometry_of};
ghost use Rattle.alloc_log.specs.Tool.{read_reply, read_out, verdict_of, compare_verdict, compact_reply_of, compact_reply, compact_out};
ghost use Rattle.model.specs.Memory.{make_reply, make_after, lent};
ghost use Rattle.sogvect.specs.Coded.{code_of, count_after, answer_code, answer_given, verdict_code, alike_after, words_after};

pub mod calls;
pub mod looks;
pub mod names;
pub mod scripts;

use alloc_log::tool::{compact, compare, read_held};
use answer::Refusal;
use geometry::Numbers;
use store::make::make;

// The code of a call that was done; a refusal's is its number.
const DONE: u32 = 0;

// The code of an answer; what a done call gives, the count of its numbers or whether two logs are alike, goes to `given`.
fn coded<T: Copy>(answer: Result<T, Refusal>, given: &mut T) -> u32
    ensures code { result ≡ answer_code answer }
    ensures given { given.new ≡ answer_given answer given.old }
{
    match answer {
        Ok(value) => {
            *given = value;
            DONE
        }
        Err(refusal) => u32::from(refusal.number()),
    }
}

// A fresh store on the lent memory; it has no result.
#[unsafe(no_mangle)]
pub extern "C" fn sogvect_make(
    arenas: usize,
    per: usize,
    pages: usize,
    records: usize,
    turn: usize,
    words: usize,
    tables: &mut [u32],
    log: &[u8],
    out: &[u32],
) -> u32
    ensures code { result ≡ code_of (make_reply (geometry_of arenas per pages records turn words) (lent tables.old log.now out.now)) }
    ensures tables { tables.new ≡ (make_after (geometry_of arenas per pages records turn words) (lent tables.old log.now out.now)).tables }
{
    let numbers = Numbers::of(arenas, per, pages, records, turn, words);
    let a = make(numbers, tables, log, out);
    let mut count: usize = 0;
    coded(a, &mut count)
}

// Reads a log of any length. The result is the held blocks, rising.
#[unsafe(no_mangle)]
pub extern "C" fn sogvect_log_read(
    arenas: usize,
    per: usize,
    pages: usize,
    records: usize,
    turn: usize,
    words: usize,
    log: &[u8],
    out: &mut [u32],
    count: &mut usize,
) -> u32
    ensures code { result ≡ code_of (read_reply (geometry_of arenas per pages records turn words) log.now out.old) }
    ensures count { count.new ≡ count_after (read_reply (geometry_of arenas per pages records turn words) log.now out.old) count.old }
    ensures out { out.new ≡ read_out (geometry_of arenas per pages records turn words) log.now out.old }
{
    let numbers = Numbers::of(arenas, per, pages, records, turn, words);
    let a = read_held(numbers, log, out);
    coded(a, count)
}

// Compares two logs of any length: `alike` becomes 1 where they end with the same held blocks, else 0.
#[unsafe(no_mangle)]
pub extern "C" fn sogvect_log_compare(
    arenas: usize,
    per: usize,
    pages: usize,
    records: usize,
    turn: usize,
    words: usize,
    first: &[u8],
    second: &[u8],
    alike: &mut u32,
) -> u32
    ensures code { result ≡ verdict_code (compare_verdict (geometry_of arenas per pages records turn words) first.now second.now) }
    ensures alike { alike.new ≡ alike_after (compare_verdict (geometry_of arenas per pages records turn words) first.now second.now) alike.old }
{
    let numbers = Numbers::of(arenas, per, pages, records, turn, words);
    let answer = compare(numbers, first, second);
    coded(answer.map(u32::from), alike)
}

// Writes a log of any length again, compressed, at the start of `out`; `count` becomes the number of its words.
#[unsafe(no_mangle)]
pub extern "C" fn sogvect_log_compact(
    arenas: usize,
    per: usize,
    pages: usize,
    records: usize,
    turn: usize,
    words: usize,
    log: &[u8],
    out: &mut [u8],
    count: &mut usize,
) -> u32
    ensures code { result ≡ code_of (compact_reply (geometry_of arenas per pages records turn words) log.now out.old) }
    ensures count { count.new ≡ words_after (compact_reply (geometry_of arenas per pages records turn words) log.now out.old) count.old }
    ensures out { out.new ≡ compact_out (geometry_of arenas per pages records turn words) log.now out.old }
{
    let numbers = Numbers::of(arenas, per, pages, records, turn, words);
    let a = compact(numbers, log, out);
    coded(a, count)
}
