// Which blocks are held: the births agree with marks, the queue has other blocks, and both agree with the free words and the blocks that wait, and with
// what the log reads to.
ghost use Rattle.std.specs.Prelude.{◌≡◌, ◌+◌, ◌^◌, ℕ, ◌<◌, ◌≤◌, Bool, true, ◌&&◌, length, take, drop, slice_index};
ghost use Rattle.geometry.specs.Limits.{blocks};
ghost use Rattle.alloc_log.specs.Marks.{held_in};
ghost use Rattle.model.specs.Table.{all};
ghost use Rattle.model.specs.Check.{same};
ghost use Rattle.model.specs.Held.{tally, on_pages, queued, held};
ghost use Rattle.model.specs.State.{QueueFits};
ghost use Rattle.model.specs.Layout.{numbers};
ghost use Rattle.model.specs.Memory.{queue?, waiting?, free?, log_holds?};
ghost use Rattle.tables.specs.Ready.{LogLong};
ghost use Rattle.tables.specs.Lent.{view_in, state_in};
ghost use Rattle.soundness.specs.Waiting.{joined, joins?};
ghost use Rattle.soundness.specs.Queue.{Marked, first_queued, marking, marks?};

use alloc_log::read::read_log;
use choice::{bit_of, words_agree};
use tables::births::{queue_at, queue_births_at, waiting_at};
use tables::cells::{FREE, LAST, PAGES, QUEUED, ROWS, USED, WAITS};
use tables::find::wide;
use tables::lent::Tables;

// Of the first n blocks, those that pass a test have a mark, and no others. It looks at all of them, several in one instruction.
fn marks_agree<F: Fn(usize) -> bool>(marks: &[u8; 2048], n: usize, passes: F) -> bool
    requires few { n ≤ 2048 }
    requires asked { (b : ℕ) → b < n → F.pre passes b }
    ensures { (test : ℕ → Bool) → ((b : ℕ) (r : Bool) → b < n → F.post passes b r → r ≡ test b) →
        result ≡ all n (λ b. same (held_in marks.now b) (test b)) }
{
    let mut agree = true;
    for b in 0..n {
        agree &= (marks[b] != 0) == passes(b);
    }
    agree
}

// A block has a mark just where it has a birth.
pub fn births_agree(tables: &Tables, marks: &[u8; 2048]) -> bool
    ensures { result ≡ all (blocks tables.now.g) (λ b. same (held_in marks.now b) (on_pages (view_in tables.now) b)) }
{
    let g = tables.g;
    let births = PAGES + ROWS * g.records;
    marks_agree(marks, g.arenas * g.per, |b| tables.cells[births + b] != 0)
}

// Each of the n queued blocks is a block without a mark, and gets one: it is on no page, and not queued twice. Its birth in the queue is a number from 1 to
// `last`.
fn mark_queued(tables: &Tables, own: &mut [u8; 2048], n: usize, last: u32) -> bool
    requires { (n ≤ blocks tables.now.g) × (length own.old ≡ 2048) }
    ensures is { result ≡ marks? (blocks tables.now.g) (state_in tables.now).queue.birth last own.old (first_queued tables.now.g tables.now.cells.now n) }
    ensures marked { result ≡ true → own.new ≡ marking own.old (first_queued tables.now.g tables.now.cells.now n) }
{
    let g = tables.g;
    let queue = queue_at(g);
    let births = queue_births_at(g);
    for x in &tables.cells[queue..queue + n] {
        let b = wide(*x);
        if g.arenas * g.per <= b {
            return false;
        }
        if own[b] != 0 {
            return false;
        }
        if !(1..=last).contains(&tables.cells[births + b]) {
            return false;
        }
        own[b] = 1;
    }
    true
}

// How many blocks have a birth in the queue. It looks at all blocks, several in one instruction.
fn count_queued(tables: &Tables) -> usize
    ensures { result ≡ tally (queued (state_in tables.now)) (blocks tables.now.g) }
{
    let g = tables.g;
    let births = queue_births_at(g);
    let mut count: u32 = 0;
    for birth in &tables.cells[births..births + g.arenas * g.per] {
        count += u32::from(*birth != 0);
    }
    wide(count)
}

// The queue has each of its blocks once and none that has a mark, which is on a page; its blocks, and no others, have a birth in the queue. They get a mark.
pub fn queue_fits(tables: &Tables, own: &mut [u8; 2048]) -> bool
    requires { (length own.old ≡ 2048) × Marked (blocks tables.now.g) own.old (on_pages (view_in tables.now)) }
    ensures is { result ≡ queue? (state_in tables.now) }
    ensures marked { result ≡ true → Marked (blocks tables.now.g) own.new (held (state_in tables.now)) }
{
    let g = tables.g;
    let n = tables.header_number(QUEUED);
    if g.arenas * g.per < n {
        return false;
    }
    mark_queued(tables, own, n, tables.cells[LAST]) && count_queued(tables) == n
}

// Sets the bit of each of the n blocks of the list that begins at `from`. Each must be a block, and its bit not set before.
fn set_listed(tables: &Tables, words: &mut [u32; 64], from: usize, n: usize) -> bool
    requires { (from + n ≤ length tables.now.cells.now) × (length words.old ≡ 64) }
    ensures is { result ≡ joins? (blocks tables.now.g) words.old (numbers tables.now.cells.now from n) }
    ensures set { result ≡ true → words.new ≡ joined words.old (numbers tables.now.cells.now from n) }
{
    let g = tables.g;
    for x in &tables.cells[from..from + n] {
        let b = wide(*x);
        if g.arenas * g.per <= b {
            return false;
        }
        let word = words[b >> 5];
        let bit = bit_of(b);
        if word & bit != 0 {
            return false;
        }
        words[b >> 5] = word | bit;
    }
    true
}

// A copy of the free words.
fn free_words(t: &[u32]) -> [u32; 64]
    requires { 128 ≤ length t.now }
    ensures copy { result ≡ take 64 (drop 64 t.now) }
    ensures range { (k : ℕ) → slice_index result k < 2 ^ 32 }
{
    let mut words = [0u32; 64];
    words.copy_from_slice(&t[FREE..FREE + 64]);
    words
}

// The free words tell the blocks that may be given: with those that wait and those that are queued, which are other ones, they are the blocks that have
// no birth. The queue is known to fit.
pub fn words_fit(tables: &Tables) -> bool
    requires { QueueFits (state_in tables.now) }
    ensures { result ≡ (waiting? (state_in tables.now) && free? (state_in tables.now) tables.now.cells.now) }
{
    let g = tables.g;
    let n = tables.header_number(WAITS);
    if g.arenas * g.per < n {
        return false;
    }
    let mut words = free_words(tables.cells);
    let births = PAGES + ROWS * g.records;
    set_listed(tables, &mut words, waiting_at(g), n)
        && set_listed(
            tables,
            &mut words,
            queue_at(g),
            tables.header_number(QUEUED),
        )
        && words_agree(&words, &tables.cells[births..], g.arenas * g.per)
}

// The log reads to the held blocks, on pages or queued, which are those with a mark in `own`.
pub fn log_holds(tables: &Tables, log: &[u8], own: &[u8; 2048]) -> bool
    requires { LogLong tables.now.g log.now × (slice_index tables.now.cells.now 9 ≤ tables.now.g.words) ×
        Marked (blocks tables.now.g) own.now (held (state_in tables.now)) }
    ensures { result ≡ log_holds? tables.now.g (state_in tables.now) log.now }
{
    let g = tables.g;
    let used = tables.header_number(USED);
    let end = 8 * used;
    let Some(marks) = read_log(&log[..end], g.arenas, g.per) else {
        return false;
    };
    marks_agree(&marks, g.arenas * g.per, |b| own[b] != 0)
}
