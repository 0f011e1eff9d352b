// All calls that are numbers, as one function: the store's call, with its answer as a code and a count.
ghost use Rattle.std.specs.Prelude.{◌≡◌};
ghost use Rattle.geometry.specs.Limits.{geometry_of};
ghost use Rattle.model.specs.Memory.{lent};
ghost use Rattle.script.specs.Parse.{says_of};
ghost use Rattle.sogvect.specs.Coded.{Answered};
ghost use Rattle.sogvect.specs.Letters.{asked_by};

use crate::coded;
use geometry::Numbers;
use script::parse::{Parsed, bare_of, one_of, three_of, two_of};
use store::call::call;

// The answer to a letter that no call has.
pub const NO_CALL: u32 = 1;

// The call of a letter and of as many of three numbers as it takes.
pub fn asked_by(letter: u32, x: u32, y: u32, z: u32) -> Parsed
    ensures { result ≡ says_of (asked_by letter x y z) }
{
    if 255 < letter {
        return Parsed::No;
    }
    let b = (letter % 256) as u8;
    let bare = bare_of(b);
    if let Parsed::Asks(_) = bare {
        return bare;
    }
    let one = one_of(b, x);
    if let Parsed::Asks(_) = one {
        return one;
    }
    let two = two_of(b, x, y);
    if let Parsed::Asks(_) = two {
        return two;
    }
    three_of(b, x, y, z)
}

// The call of a letter and three numbers on lent memory.
#[unsafe(no_mangle)]
pub extern "C" fn sogvect_call(
    arenas: usize,
    per: usize,
    pages: usize,
    records: usize,
    turn: usize,
    words: usize,
    tables: &mut [u32],
    log: &mut [u8],
    out: &mut [u32],
    letter: u32,
    x: u32,
    y: u32,
    z: u32,
    count: &mut usize,
) -> u32
    ensures { Answered (geometry_of arenas per pages records turn words)
        (lent tables.old log.old out.old) (asked_by letter x y z)
        count.old result count.new (lent tables.new log.new out.new) }
{
    let asked = asked_by(letter, x, y, z);
    let Parsed::Asks(c) = asked else {
        return NO_CALL;
    };
    let numbers = Numbers::of(arenas, per, pages, records, turn, words);
    let a = call(numbers, tables, log, out, c);
    coded(a, count)
}
