// Reading a log.
ghost use Rattle.std.specs.Prelude.{◌≡◌, ◌+◌, ◌*◌, ◌%◌, ◌<◌, ◌≤◌, true, false, length};
ghost use Rattle.alloc_log.specs.Word.{words};
ghost use Rattle.alloc_log.specs.Marks.{Table};
ghost use Rattle.alloc_log.specs.Read.{first_word, second_word, read_words, read_log, told, ReadOn, State};

use crate::marks::mark_run;
use crate::word::get_word;

// How far the reading of a log has come.
#[derive(Clone, Copy)]
pub enum Progress {
    // The next word starts an entry.
    Ready,
    // The next word is the length of a run that starts at the block, and is to be held or free.
    Run(bool, usize),
}

// The first word of an entry: none where it is bad.
fn first_word(marks: &mut [u8; 2048], word: u64, blocks: usize) -> Option<Progress>
    requires { blocks ≤ 2048 }
    ensures { ◌≡◌ {A = State} (result, marks.new) (first_word blocks marks.old word) }
{
    let low = word % 256;
    let rest = word - low;
    if low == 3 {
        return (rest == 0).then_some(Progress::Ready);
    }
    if rest % 16384 != 0 {
        return None;
    }
    let block = (rest / 16384) as usize;
    if blocks <= block {
        return None;
    }
    match low {
        1 => mark_run(marks, block, 1, true).then_some(Progress::Ready),
        2 => mark_run(marks, block, 1, false).then_some(Progress::Ready),
        4 => Some(Progress::Run(true, block)),
        5 => Some(Progress::Run(false, block)),
        _ => None,
    }
}

// The second word of a run's entry: none where it is bad.
fn second_word(
    marks: &mut [u8; 2048],
    held: bool,
    block: usize,
    word: u64,
    arenas: usize,
    per: usize,
) -> Option<Progress>
    requires { (0 < per) × (arenas * per ≤ 2048) × (block < arenas * per) }
    ensures { ◌≡◌ {A = State} (result, marks.new) (second_word per marks.old held block word) }
{
    if word == 0 {
        return None;
    }
    if word % 16384 != 0 {
        return None;
    }
    let count = (word / 16384) as usize;
    let within = block % per;
    if per < within + count {
        return None;
    }
    mark_run(marks, block, count, held).then_some(Progress::Ready)
}

// Reads a word that allocates or frees one block, where the block is in the other state. Less 1, such a word is the block and the mark that it has:
// all bytes count, so that a word is one load and one byte swap; and the word tells the new mark, so that no word waits for the one before.
fn read_single(marks: &mut [u8; 2048], word: u64, blocks: usize) -> bool
    requires { (blocks ≤ 2048) × Table blocks marks.old }
    ensures table { Table blocks marks.new }
    ensures yes { result ≡ true → first_word blocks marks.old word ≡ (Some Progress.Ready, marks.new) }
    ensures no { result ≡ false → marks.new ≡ marks.old }
{
    let entry = word.wrapping_sub(1);
    let block = entry / 16384;
    if blocks as u64 <= block {
        return false;
    }
    let b = block as usize;
    let mark = entry % 16384;
    if mark == u64::from(marks[b]) {
        marks[b] = (mark ^ 1) as u8;
        return true;
    }
    false
}

// Reads on from a byte position over barriers and words of one block, two words in a turn of the loop; returns where it stopped. Of two words only the
// first is looked at for a barrier: a barrier in the second place is the first of the next turn.
fn read_pairs(marks: &mut [u8; 2048], log: &[u8], from: usize, arenas: usize, per: usize) -> usize
    requires { (arenas * per ≤ 2048) × (from ≤ length log.now) × Table (arenas * per) marks.old }
    ensures { ReadOn arenas per log.now marks.old from marks.new result }
{
    let mut at = from;
    // Kept: a turn reads one word or two, which no range tells.
    while at + 16 <= log.len() {
        let first = get_word(log, at);
        if first == 3 {
            at += 8;
        } else {
            if !read_single(marks, first, arenas * per) {
                return at;
            }
            at += 8;
            if read_single(marks, get_word(log, at), arenas * per) {
                at += 8;
            }
        }
    }
    at
}

// Reads a log: none where a word is bad.
fn read_all(marks: &mut [u8; 2048], log: &[u8], arenas: usize, per: usize) -> Option<Progress>
    requires { (0 < per) × (arenas * per ≤ 2048) × (length log.now % 8 ≡ 0) × Table (arenas * per) marks.old }
    ensures { ◌≡◌ {A = State} (result, marks.new) (read_words arenas per (Some Progress.Ready, marks.old) (words log.now)) }
{
    let mut p = Progress::Ready;
    let mut at: usize = 0;
    // Kept: how far a turn reads is known only after it, which no range tells.
    while at < log.len() {
        match p {
            Progress::Ready => {
                at = read_pairs(marks, log, at, arenas, per);
                if at < log.len() {
                    p = first_word(marks, get_word(log, at), arenas * per)?;
                    at += 8;
                }
            }
            Progress::Run(held, block) => {
                p = second_word(marks, held, block, get_word(log, at), arenas, per)?;
                at += 8;
            }
        }
    }
    Some(p)
}

// What a log holds: 1 for each held block; none where it is no log.
pub fn read_log(log: &[u8], arenas: usize, per: usize) -> Option<[u8; 2048]>
    requires { (0 < per) × (arenas * per ≤ 2048) }
    ensures { told result ≡ read_log arenas per log.now }
{
    if log.len() % 8 != 0 {
        return None;
    }
    let mut marks = [0u8; 2048];
    match read_all(&mut marks, log, arenas, per)? {
        Progress::Ready => Some(marks),
        Progress::Run(_, _) => None,
    }
}
