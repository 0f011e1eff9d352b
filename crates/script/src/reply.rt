// Replies as text: `+` and the result's numbers, a colon between a block and its birth, or `-` and the refusal.
ghost use Rattle.std.specs.Prelude.{◌≡◌, ◌+◌, ◌*◌, ◌<◌, ◌≤◌, length, take};
ghost use Rattle.alloc_log.specs.Word.{write_at};
ghost use Rattle.model.specs.Results.{born_in, items_of};
ghost use Rattle.script.specs.Decimal.{decimal, led, spaced};
ghost use Rattle.script.specs.ReplyText.{items_text, is_blocks, spelling_of, by_number, numbered_reply, reply_text, Room};

use crate::parse::Parsed;
use answer::Answer;
use model::{Call, Spelling};

// Writes a number's digits at a position; returns the position after them.
fn put_digits(text: &mut [u8], at: usize, n: u32) -> usize
    requires { at + length (decimal n) ≤ length text.old }
    ensures { (result ≡ at + length (decimal n)) × (text.new ≡ write_at text.old at (decimal n)) }
{
    if n < 10 {
        text[at] = b'0' + n as u8;
        return at + 1;
    }
    let end = put_digits(text, at, n / 10);
    text[end] = b'0' + (n % 10) as u8;
    end + 1
}

// How many digits a number of two to four digits has.
fn width_of(n: u32) -> usize
    requires { (10 ≤ n) × (n < 10000) }
    ensures is { result ≡ length (decimal n) }
    ensures range { (2 ≤ result) × (result ≤ 4) }
{
    if n < 100 {
        return 2;
    }
    if n < 1000 {
        return 3;
    }
    4
}

// Fixed point with 32 bits after the point: one, and a thousandth, rounded up.
const ONE: u64 = 4294967296;

const THOUSANDTH: u64 = 4294968;

// Writes a separator and a number of two to four digits with no branch. A thousandth of the number has its thousands in front of the point, and ten times
// what is left after the point has the next digit there. A thousand or a hundred that is not there is written over by the digit after it.
fn put_few(text: &mut [u8], at: usize, separator: u8, n: u32) -> usize
    requires { (10 ≤ n) × (n < 10000) × (at + 11 ≤ length text.old) }
    ensures { (result ≡ at + length (led separator n)) × (result ≤ at + 11) × (text.new ≡ write_at text.old at (led separator n)) }
{
    let width = width_of(n);
    let last = at + width;
    let thousands = u64::from(n) * THOUSANDTH;
    let hundreds = thousands % ONE * 10;
    let tens = hundreds % ONE * 10;
    let ones = tens % ONE * 10;
    text[at] = separator;
    text[at + 1] = b'0' + (thousands / ONE) as u8;
    text[at + 1 + width / 4] = b'0' + (hundreds / ONE) as u8;
    text[last - 1] = b'0' + (tens / ONE) as u8;
    text[last] = b'0' + (ones / ONE) as u8;
    last + 1
}

// Writes a separator and a number at a position; returns the position after them. Block numbers have at most four digits.
fn put_number(text: &mut [u8], at: usize, separator: u8, n: u32) -> usize
    requires { at + 11 ≤ length text.old }
    ensures { (result ≡ at + length (led separator n)) × (result ≤ at + 11) × (text.new ≡ write_at text.old at (led separator n)) }
{
    if 10000 <= n {
        text[at] = separator;
        return put_digits(text, at + 1, n);
    }
    if 10 <= n {
        return put_few(text, at, separator, n);
    }
    text[at] = separator;
    text[at + 1] = b'0' + n as u8;
    at + 2
}

// Writes the first n numbers of `out`, each after a space; returns the position after them.
fn put_numbers(text: &mut [u8], at: usize, out: &[u32], n: usize) -> usize
    requires { (n ≤ length out.now) × (at + 11 * n ≤ length text.old) }
    ensures { (result ≡ at + length (spaced (take n out.now))) × (result ≤ at + 11 * n) × (text.new ≡ write_at text.old at (spaced (take n out.now))) }
{
    let mut end = at;
    for x in &out[..n] {
        end = put_number(text, end, b' ', *x);
    }
    end
}

// Writes the blocks among the first n numbers of `out`, each after a space and with its birth after a colon; returns the position after them.
fn put_blocks(text: &mut [u8], at: usize, out: &[u32], n: usize) -> usize
    requires { (n ≤ length out.now) × (at + 11 * n ≤ length text.old) }
    ensures { (result ≡ at + length (items_text (born_in (take n out.now)))) × (result ≤ at + 11 * n)
        × (text.new ≡ write_at text.old at (items_text (born_in (take n out.now)))) }
{
    let mut end = at;
    for i in 0..n / 2 {
        end = put_number(text, end, b' ', out[2 * i]);
        end = put_number(text, end, b':', out[2 * i + 1]);
    }
    end
}

// Is a result blocks, each with its birth?
fn is_blocks(spelling: Spelling) -> bool
    ensures { result ≡ is_blocks spelling }
{
    matches!(spelling, Spelling::Blocks)
}

// Writes the first n numbers of `out` as they are spelled; returns the position after them.
fn put_items(text: &mut [u8], at: usize, spelling: Spelling, out: &[u32], n: usize) -> usize
    requires { (n ≤ length out.now) × (at + 11 * n ≤ length text.old) }
    ensures { (result ≡ at + length (items_text (items_of spelling (take n out.now)))) × (result ≤ at + 11 * n)
        × (text.new ≡ write_at text.old at (items_text (items_of spelling (take n out.now)))) }
{
    if is_blocks(spelling) {
        return put_blocks(text, at, out, n);
    }
    put_numbers(text, at, out, n)
}

// An answer with its refusal by the number, as replies have it.
pub fn by_number(answer: Answer) -> Result<usize, u8>
    ensures { result ≡ by_number answer }
{
    match answer {
        Ok(n) => Ok(n),
        Err(refusal) => Err(refusal.number()),
    }
}

// Writes the reply to a call and a line feed after the first `at` bytes; returns how many bytes there are then. A refusal may have any number.
pub fn put_reply(
    text: &mut [u8],
    at: usize,
    spelling: Spelling,
    answer: Result<usize, u8>,
    out: &[u32],
) -> usize
    requires { Room text.old at answer out.now }
    ensures { (result ≡ at + length (reply_text spelling (numbered_reply answer out.now)))
        × (text.new ≡ write_at text.old at (reply_text spelling (numbered_reply answer out.now))) }
{
    match answer {
        Ok(n) => {
            text[at] = b'+';
            let end = put_items(text, at + 1, spelling, out, n);
            text[end] = b'\n';
            end + 1
        }
        Err(number) => {
            text[at] = b'-';
            let end = put_number(text, at + 1, b' ', u32::from(number));
            text[end] = b'\n';
            end + 1
        }
    }
}

// How the numbers of the reply to a line are spelled, by what the line says.
pub fn spelling_of(says: Parsed) -> Spelling
    ensures { result ≡ spelling_of says }
{
    let Parsed::Asks(c) = says else {
        return Spelling::Numbers;
    };
    match c {
        Call::Write(_, _, _) => Spelling::Blocks,
        Call::Erase(_, _) => Spelling::Blocks,
        Call::Read(_, _) => Spelling::Blocks,
        Call::Reclaim(_) => Spelling::Blocks,
        _ => Spelling::Numbers,
    }
}
