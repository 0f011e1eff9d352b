// The command `compare`: whether two logs hold the same blocks at their end.
use crate::args::{FILE, OTHER};
use crate::file::{MOST, read_file};
use crate::reply::{print_line, print_refusal};
use crate::sentence::refused;
use alloc_log::tool::compare;
use geometry::Numbers;
use std::rt::{Env, Files};

// Compares two logs; where one is no log, the sentence is about the first that is none.
fn judge(rt: &(impl Env + Print), err: &impl Print, numbers: Numbers, first: &[u8], second: &[u8]) {
    let verdict = compare(numbers, first, second);
    match verdict {
        Ok(true) => print_line(rt, err, b"+ alike"),
        Ok(false) => print_line(rt, err, b"+ different"),
        Err(refusal) => {
            print_refusal(rt, err, refusal);
            refused(rt, err, refusal, first_bad(numbers, first));
        }
    }
}

// Which argument names the first file that is no log, where one is none: a log compared with itself is refused if it is none.
fn first_bad(numbers: Numbers, first: &[u8]) -> usize {
    let verdict = compare(numbers, first, first);
    if verdict.is_ok() { OTHER } else { FILE }
}

pub fn print_comparison(rt: &(impl Env + Files + Print), err: &impl Print, numbers: Numbers) {
    let mut space = [0u8; MOST];
    let Some(n) = read_file(rt, err, FILE, &mut space) else {
        return;
    };
    let mut more = [0u8; MOST];
    let Some(m) = read_file(rt, err, OTHER, &mut more) else {
        return;
    };
    judge(rt, err, numbers, &space[..n], &more[..m]);
}
