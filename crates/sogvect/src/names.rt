// The calls of names, which are lent as bytes: any bytes, of any length.
ghost use Rattle.std.specs.Prelude.{◌≡◌};
ghost use Rattle.geometry.specs.Limits.{geometry_of};
ghost use Rattle.model.specs.Command.{Attach, Detach, Resolve};
ghost use Rattle.model.specs.Memory.{reply, lent};
ghost use Rattle.sogvect.specs.Coded.{count_after, Replied};

use crate::coded;
use geometry::Numbers;
use store::names::{attach, detach, resolve};

// N: the name goes on a record. It has no result.
// Kept: this function and the next two have one form, since the C interface needs each by its own name.
#[unsafe(no_mangle)]
pub extern "C" fn sogvect_name(
    arenas: usize,
    per: usize,
    pages: usize,
    records: usize,
    turn: usize,
    words: usize,
    tables: &mut [u32],
    log: &[u8],
    out: &[u32],
    name: &[u8],
    record: u32,
) -> u32
    ensures { Replied (geometry_of arenas per pages records turn words)
        (lent tables.old log.now out.now) (Attach name.now «record») result
        (lent tables.new log.now out.now) }
{
    let numbers = Numbers::of(arenas, per, pages, records, turn, words);
    let a = attach(numbers, tables, log, out, name, record);
    let mut count: usize = 0;
    coded(a, &mut count)
}

// U: the name is taken off its record. It has no result.
#[unsafe(no_mangle)]
pub extern "C" fn sogvect_unname(
    arenas: usize,
    per: usize,
    pages: usize,
    records: usize,
    turn: usize,
    words: usize,
    tables: &mut [u32],
    log: &[u8],
    out: &[u32],
    name: &[u8],
) -> u32
    ensures { Replied (geometry_of arenas per pages records turn words)
        (lent tables.old log.now out.now) (Detach name.now) result
        (lent tables.new log.now out.now) }
{
    let numbers = Numbers::of(arenas, per, pages, records, turn, words);
    let a = detach(numbers, tables, log, out, name);
    let mut count: usize = 0;
    coded(a, &mut count)
}

// M: the number of the record that the name is on.
#[unsafe(no_mangle)]
pub extern "C" fn sogvect_resolve(
    arenas: usize,
    per: usize,
    pages: usize,
    records: usize,
    turn: usize,
    words: usize,
    tables: &[u32],
    log: &[u8],
    out: &mut [u32],
    name: &[u8],
    count: &mut usize,
) -> u32
    ensures answer { Replied (geometry_of arenas per pages records turn words)
        (lent tables.now log.now out.old) (Resolve name.now) result
        (lent tables.now log.now out.new) }
    ensures count { count.new ≡ count_after (reply (geometry_of arenas per pages records turn words)
        (lent tables.now log.now out.old) (Resolve name.now)) count.old }
{
    let numbers = Numbers::of(arenas, per, pages, records, turn, words);
    let a = resolve(numbers, tables, log, out, name);
    coded(a, count)
}
