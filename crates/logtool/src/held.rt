// The command `held`: the blocks that a log holds at its end.
use crate::args::FILE;
use crate::file::{MOST, read_file};
use crate::reply::{print_numbers, print_refusal};
use crate::sentence::refused;
use alloc_log::tool::read_held;
use geometry::{Geometry, Numbers};
use std::rt::{Env, Files};

// The held blocks of a log, by way of `out`.
fn print_blocks(
    rt: &(impl Env + Print),
    err: &impl Print,
    numbers: Numbers,
    log: &[u8],
    out: &mut [u32],
) {
    let answer = read_held(numbers, log, out);
    match answer {
        Ok(count) => print_numbers(rt, err, &out[..count]),
        Err(refusal) => {
            print_refusal(rt, err, refusal);
            refused(rt, err, refusal, FILE);
        }
    }
}

pub fn print_held(rt: &(impl Env + Files + Print), err: &impl Print, numbers: Numbers) {
    let mut space = [0u8; MOST];
    let Some(n) = read_file(rt, err, FILE, &mut space) else {
        return;
    };
    let mut out = [0u32; Geometry::MOST_OUT];
    print_blocks(rt, err, numbers, &space[..n], &mut out);
}
