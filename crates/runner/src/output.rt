// Writing replies, all or none after a failure.
ghost use Rattle.std.specs.Prelude.{◌+◌, ◌≤◌, IfOk, length};

use crate::sentence::say;
use crate::stream::{Stream, after_failure};
use std::fs::{File, OpenOptions};
use std::io;
use std::io::{Stdout, Write};
use std::rt::Files;

// How many writes there are at most for one part: each takes a byte, or was interrupted.
const TURNS: usize = 1000000;

// One write of the bytes from `from` on: how many it took.
fn write_once<S: Write>(output: &mut S, replies: &[u8], from: usize) -> io::Result<usize>
    requires { from ≤ length replies.now }
    ensures { IfOk result (λ more. from + more ≤ length replies.now) }
{
    output.write(&replies[from..])
}

// Writes the replies, and returns whether it could; where not, it says why, and no later reply may be written.
pub fn write_replies<R: Files<File = File> + Eprint + Alloc>(
    rt: &R,
    output: &mut Stream<Stdout>,
    replies: &[u8],
) -> bool {
    let mut done = 0;
    for _ in 0..TURNS {
        if done == replies.len() {
            return true;
        }
        match write_once(output, replies, done) {
            Ok(more) => done += more,
            Err(error) => {
                let again = || OpenOptions::new().append(true).open(rt, "/dev/stdout");
                if !after_failure(
                    rt,
                    output,
                    &error,
                    "standard output",
                    "takes nothing now",
                    again,
                ) {
                    return false;
                }
            }
        }
    }
    if done == replies.len() {
        return true;
    }
    say(rt, "standard output: interrupted too often");
    false
}
