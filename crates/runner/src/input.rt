// Reading the script as it comes.
ghost use Rattle.std.specs.Prelude.{◌≡◌, ◌+◌, ◌≤◌, IfOk, IfSome, length, take};
ghost use Rattle.runner.specs.Turn.{whole_after, feed_end, part_end};

use crate::sentence::say;
use crate::stream::{Stream, after_failure};
use std::fs::File;
use std::io;
use std::io::{Read, Stdin};
use std::rt::Files;

// How often a call that a signal interrupts is made again.
const TURNS: usize = 1000000;

// One read, after the first `from` bytes of `text`: how many bytes it brought, none at the end of the input.
fn read_once<S: Read>(input: &mut S, text: &mut [u8], from: usize) -> io::Result<usize>
    requires { from ≤ length text.old }
    ensures range { IfOk result (λ more. from + more ≤ length text.old) }
    ensures stays { take from text.new ≡ take from text.old }
{
    input.read(&mut text[from..])
}

// Reads what is there, and waits where nothing is there yet: so many bytes, none at the end of the input. Where that fails, it says
// why. The bytes read before stay.
pub fn read_more<R: Files<File = File> + Eprint + Alloc>(
    rt: &R,
    input: &mut Stream<Stdin>,
    text: &mut [u8],
    from: usize,
) -> Option<usize>
    requires { from ≤ length text.old }
    ensures range { IfSome result (λ more. from + more ≤ length text.old) }
    ensures stays { take from text.new ≡ take from text.old }
{
    for _ in 0..TURNS {
        match read_once(input, text, from) {
            Ok(more) => return Some(more),
            Err(error) => {
                let again = || File::open(rt, "/dev/stdin");
                if !after_failure(
                    rt,
                    input,
                    &error,
                    "standard input",
                    "has nothing yet",
                    again,
                ) {
                    return None;
                }
            }
        }
    }
    say(rt, "standard input: interrupted too often");
    None
}

// The most bytes of a script that are read.
pub const MOST: usize = 65536;

// Whether a script of `all` bytes so far, `more` of them from the last read, is whole: at the end of the input, or at the most that is read.
pub fn is_whole(more: usize, all: usize) -> bool
    ensures { result ≡ whole_after more all }
{
    more == 0 || all == MOST
}

// What ends a line.
const FEED: u8 = b'\n';

// Where the last whole line of `text` ends, of which the bytes from `from` on are new; 0 where no line ends among these.
fn lines_end(text: &[u8], from: usize) -> usize
    ensures { result ≡ feed_end text.now from (length text.now) }
{
    for i in (from..text.len()).rev() {
        if text[i] == FEED {
            return i + 1;
        }
    }
    0
}

// How far a text is answered, of which the bytes from `from` on are new: to the end of its last whole line, or, once the script is whole, to its end.
pub fn part_end(text: &[u8], from: usize, whole: bool) -> usize
    ensures is { result ≡ part_end text.now from whole }
    ensures range { result ≤ length text.now }
{
    if whole {
        return text.len();
    }
    lines_end(text, from)
}
