// The command `compress`: a log written again, compressed, as a new file.
ghost use Rattle.std.specs.Prelude.{◌*◌, ◌≤◌, length};

use crate::args::{FILE, OTHER};
use crate::file::{MOST, read_file, write_file};
use crate::reply::{print_count, print_refusal};
use crate::sentence::refused;
use alloc_log::tool::compact;
use geometry::Numbers;
use std::rt::{Env, Files};

// The bytes that a compressed log has room for.
const ROOM: usize = 65536;

// Makes the new file of the first words of `out`.
fn keep(rt: &(impl Env + Files + Print), err: &impl Print, out: &[u8], words: usize)
    requires { 8 * words ≤ length out.now }
{
    if write_file(rt, err, OTHER, &out[..8 * words]) {
        print_count(rt, err, words);
    }
}

// Compresses a log into `out`, and makes the new file of it.
fn write_words(
    rt: &(impl Env + Files + Print),
    err: &impl Print,
    numbers: Numbers,
    log: &[u8],
    out: &mut [u8],
) {
    let compaction = compact(numbers, log, out);
    match compaction {
        Ok(words) => keep(rt, err, out, words),
        Err(refusal) => {
            print_refusal(rt, err, refusal);
            refused(rt, err, refusal, FILE);
        }
    }
}

pub fn write_compressed(rt: &(impl Env + Files + Print), err: &impl Print, numbers: Numbers) {
    let mut space = [0u8; MOST];
    let Some(n) = read_file(rt, err, FILE, &mut space) else {
        return;
    };
    let mut out = [0u8; ROOM];
    write_words(rt, err, numbers, &space[..n], &mut out);
}
