// What the line at a position says and where it ends, found together.
ghost use Rattle.std.specs.Prelude.{◌≡◌, ◌+◌, ◌-◌, ◌≤◌, length, drop};
ghost use Rattle.script.specs.Parse.{number_from};
ghost use Rattle.script.specs.Said.{said_at, NameIn, behind_first, Agrees, Tells, Begun, Next, near_of};

use crate::parse::{Parsed, bare_of, one_of, parse, three_of, two_of};
use crate::reader::line_from;
use model::Call;

// What a line says, and where it ends: the position of its line feed, or of the text's end.
#[derive(Clone, Copy)]
pub struct Said {
    pub says: Parsed,
    pub end: usize,
}

// Any line: its end first, then what it says.
fn by_line(text: &[u8], at: usize) -> Said
    ensures { result ≡ said_at text.now at }
{
    let Some((start, end)) = line_from(text, at) else {
        return Said {
            says: Parsed::No,
            end: at,
        };
    };
    let says = parse(&text[start..end]);
    Said { says, end }
}

// A first digit's value and up to three digits more, where four bytes are left; none if all four are digits, or if a 0 leads them. The value so far is
// tested for 0, after a digit, and not the first digit by itself: a branch on that goes the way of the numbers that a script has.
fn few_digits(text: &[u8], from: usize, first: u32) -> Option<(u32, usize)>
    requires { (from + 4 ≤ length text.now) × (first ≤ 9) }
    ensures { Agrees result (behind_first (drop from text.now) first from) (from + 3) }
{
    let mut value = first;
    // Kept: `digits_at` has another bound and stops at nothing else; one function for both would test in each turn what only one needs.
    for i in from..from + 4 {
        if !text[i].is_ascii_digit() {
            return Some((value, i));
        }
        if value == 0 {
            return None;
        }
        value = value * 10 + u32::from(text[i] - b'0');
    }
    None
}

// The number of at most four digits after a space at a position, where six bytes are left; none for any other.
fn short_at(text: &[u8], at: usize) -> Option<(u32, usize)>
    requires { at + 6 ≤ length text.now }
    ensures { Agrees result (number_from (drop at text.now) at) (at + 5) }
{
    let first = text[at + 1];
    if text[at] != b' ' || !first.is_ascii_digit() {
        return None;
    }
    few_digits(text, at + 2, u32::from(first - b'0'))
}

// A call that was found in one pass, and where its line ends: what a letter and its numbers say. None for a line that has to be read by its end.
fn found(says: Parsed, end: usize) -> Option<(Call, usize)>
    ensures { result ≡ near_of says end }
{
    let Parsed::Asks(c) = says else {
        return None;
    };
    Some((c, end))
}

// A line of a letter and three numbers, from the third on.
fn three_numbers(
    text: &[u8],
    at: usize,
    letter: u8,
    x: u32,
    i: usize,
    y: u32,
    j: usize,
) -> Option<(Call, usize)>
    requires { Begun text.now at letter × Next text.now (at + 1) x i × Next text.now i y j }
    ensures { Tells result (said_at text.now at) }
{
    let (z, end) = short_at(text, j)?;
    if text[end] != b'\n' {
        return None;
    }
    found(three_of(letter, x, y, z), end)
}

// A line of a letter and two numbers or more, from the second on.
fn two_numbers(text: &[u8], at: usize, letter: u8, x: u32, i: usize) -> Option<(Call, usize)>
    requires { Begun text.now at letter × Next text.now (at + 1) x i }
    ensures { Tells result (said_at text.now at) }
{
    let (y, end) = short_at(text, i)?;
    if text[end] == b'\n' {
        return found(two_of(letter, x, y), end);
    }
    three_numbers(text, at, letter, x, i, y, end)
}

// A line of a letter and one number or more.
fn one_number(text: &[u8], at: usize, letter: u8) -> Option<(Call, usize)>
    requires { Begun text.now at letter }
    ensures { Tells result (said_at text.now at) }
{
    let (x, end) = short_at(text, at + 1)?;
    if text[end] == b'\n' {
        return found(one_of(letter, x), end);
    }
    two_numbers(text, at, letter, x, end)
}

// The call at a position, if its numbers are short and 17 bytes are left: no call with such numbers has more, with its line feed.
fn near_at(text: &[u8], at: usize) -> Option<(Call, usize)>
    ensures { Tells result (said_at text.now at) }
{
    if text.len().saturating_sub(at) < 17 {
        return None;
    }
    let letter = text[at];
    let end = at + 1;
    if text[end] == b'\n' {
        return found(bare_of(letter), end);
    }
    one_number(text, at, letter)
}

// What the line at a position says, and where it ends; at the text's end or later stands a line of no byte, which is no call. The parts of what
// `by_line` found are taken one by one: handed on whole, what is said would stand in memory on both ways, and be read there in other widths than it was
// written.
pub fn said_at(text: &[u8], at: usize) -> Said
    ensures is { result ≡ said_at text.now at }
    ensures range { (at ≤ result.end) × (result.end ≤ at + (length text.now - at)) }
    ensures name { NameIn text.now at result.says result.end }
{
    let Some((c, end)) = near_at(text, at) else {
        let Said { says, end } = by_line(text, at);
        return Said { says, end };
    };
    Said {
        says: Parsed::Asks(c),
        end,
    }
}
