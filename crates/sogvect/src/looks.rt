// The calls that only look, on tables and a log that are lent to be read: nothing of them is written, and others may read them meanwhile.
ghost use Rattle.geometry.specs.Limits.{geometry_of};
ghost use Rattle.model.specs.Memory.{lent};
ghost use Rattle.engine.specs.Looks.{only_looks};
ghost use Rattle.sogvect.specs.Coded.{Answered};
ghost use Rattle.sogvect.specs.Letters.{asked_by};

use crate::calls::{NO_CALL, asked_by};
use crate::coded;
use engine::looks::look_of;
use geometry::Numbers;
use script::parse::Parsed;
use store::look::look;

// The look of a letter and two numbers, R, L or Q; a letter of no call, or of a call that does more than look, is refused by 1.
#[unsafe(no_mangle)]
pub extern "C" fn sogvect_look(
    arenas: usize,
    per: usize,
    pages: usize,
    records: usize,
    turn: usize,
    words: usize,
    tables: &[u32],
    log: &[u8],
    out: &mut [u32],
    letter: u32,
    x: u32,
    y: u32,
    count: &mut usize,
) -> u32
    ensures { Answered (geometry_of arenas per pages records turn words)
        (lent tables.now log.now out.old) (only_looks (asked_by letter x y 0))
        count.old result count.new (lent tables.now log.now out.new) }
{
    let asked = asked_by(letter, x, y, 0);
    let Parsed::Asks(c) = asked else {
        return NO_CALL;
    };
    let Some(l) = look_of(c) else {
        return NO_CALL;
    };
    let numbers = Numbers::of(arenas, per, pages, records, turn, words);
    let a = look(numbers, tables, log, out, l);
    coded(a, count)
}
