// Benchmark: reads a full log of 8,192 words 2,000 times, and prints how often it was a log. Time it from outside.
#![tactic(auto)]

use alloc_log::read::read_log;
use std::io;

// How often, of `times`, the bytes are a log of 16 arenas of 128 blocks.
fn read_often(log: &[u8], times: usize) -> usize {
    (0..times)
        .filter(|_| read_log(log, 16, 128).is_some())
        .count()
}

// Each even word allocates block 0, each odd one frees it.
fn main(rt: HostRuntime) -> io::Result<()> {
    let mut log = [0u8; 65536];
    for i in 0..8192 {
        log[8 * i + 7] = (1 + i % 2) as u8;
    }
    let good = read_often(&log, 2000);
    println!(rt; "{good}")
}
