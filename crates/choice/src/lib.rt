// The choice of a free block for a write, and what an accepted write moves: a mark and the arena counter.
#![tactic(auto)]

ghost use Rattle.std.specs.Prelude.{◌≡◌, ℕ, ◌+◌, ◌-◌, ◌*◌, ◌/◌, ◌%◌, ◌^◌, ◌<◌, ◌≤◌, min, true, false, not, length, get_or};
ghost use Rattle.choice.specs.Words.{bit, free_in, is_seen, seen_as, mark_in, first_from, born_free, word_of, words_agree, Searchable};
ghost use Rattle.choice.specs.Search.{chosen};
ghost use Rattle.choice.specs.Turn.{next, turned};

pub mod bits;

// A block, by its arena and how far after the arena's first block it stands.
#[derive(Clone, Copy, Debug, PartialEq, Eq)]
pub struct Place {
    pub arena: usize,
    pub offset: usize,
}

// The number after i among the n numbers from 0 on, round to 0. Compares and does not divide.
pub fn next_of(n: usize, i: usize) -> usize
    requires { (i < n) × (n ≤ 2048) }
    ensures is { result ≡ next n i }
    ensures below { result < n }
{
    if i + 1 == n { 0 } else { i + 1 }
}

// The bit of block b, alone in its word. Masks and shifts: a write divides nowhere (`tests/division`).
pub fn bit_of(b: usize) -> u32
    ensures { result ≡ 2 ^ (b % 32) }
{
    1u32 << (b & 31)
}

// What is left of the word of block b from b on: bit 0 is that of b.
fn rest_of(word: u32, b: usize) -> u32
    ensures is { result ≡ word / 2 ^ (b % 32) }
    ensures fits { result < 2 ^ (32 - b % 32) }
{
    word >> (b & 31)
}

// Whether four words from `at` on are all `skip`.
fn are_four(words: &[u32], at: usize, skip: u32) -> bool
    requires { at + 4 ≤ length words.now }
    ensures { result ≡ true → (y : ℕ) → y < 4 → get_or words.now (at + y) 0 ≡ skip }
{
    // Kept: `all` is no plainer, it would branch after each of the four.
    (words[at] == skip)
        & (words[at + 1] == skip)
        & (words[at + 2] == skip)
        & (words[at + 3] == skip)
}

// A word up to which all words from k on are `skip`, and no word after end: four at a time.
fn pass_fours(words: &[u32], k: usize, end: usize, skip: u32) -> usize
    requires { (k ≤ end) × (end ≤ length words.now) }
    ensures range { (k ≤ result) × (result ≤ end) }
    ensures passed { (i : ℕ) → k ≤ i → i < result → get_or words.now i 0 ≡ skip }
{
    let mut at = k;
    // Kept: with `step_by` the last words, fewer than four, would need a branch and an end of their own.
    while at + 4 <= end && are_four(words, at, skip) {
        at += 4;
    }
    at
}

// The first word from k on and below end that is not `skip`; end where there is none.
fn next_word(words: &[u32], k: usize, end: usize, skip: u32) -> usize
    requires { (k ≤ end) × (end ≤ length words.now) }
    ensures range { (k ≤ result) × (result ≤ end) }
    ensures passed { (i : ℕ) → k ≤ i → i < result → get_or words.now i 0 ≡ skip }
    ensures other { result < end → get_or words.now result 0 ≡ skip → ⊥ }
{
    for at in pass_fours(words, k, end, skip)..end {
        if words[at] != skip {
            return at;
        }
    }
    end
}

// A word as it stands, where blocks are sought that may be given; else turned over, so that a bit is 1 where a block may not.
fn seen<const GIVEN: bool>(word: u32) -> u32
    ensures { result ≡ seen_as GIVEN word }
{
    if GIVEN { word } else { !word }
}

// The first block from lo on and below hi that may be given, or with GIVEN false the first that may not; hi where there is none. It looks
// at what is left of the word of lo, then for a word that has one.
fn first_seen<const GIVEN: bool>(words: &[u32], lo: usize, hi: usize) -> usize
    requires { (hi ≤ 16384) × (hi ≤ 32 * length words.now) }
    ensures { result ≡ first_from (is_seen GIVEN words.now) hi lo (hi - lo) }
{
    if hi <= lo {
        return hi;
    }
    let rest = rest_of(seen::<GIVEN>(words[lo >> 5]), lo);
    if rest != 0 {
        return (lo + rest.trailing_zeros() as usize).min(hi);
    }
    let end = (hi + 31) >> 5;
    let k = next_word(words, (lo >> 5) + 1, end, seen::<GIVEN>(0));
    if end <= k {
        return hi;
    }
    (32 * k + seen::<GIVEN>(words[k]).trailing_zeros() as usize).min(hi)
}

// The first block from lo on and below hi that may be given; hi where there is none.
pub fn first_given(words: &[u32], lo: usize, hi: usize) -> usize
    requires { (hi ≤ 16384) × (hi ≤ 32 * length words.now) }
    ensures { result ≡ first_from (free_in words.now) hi lo (hi - lo) }
{
    first_seen::<true>(words, lo, hi)
}

// The first block from lo on and below hi that may not be given; hi where there is none.
pub fn first_kept(words: &[u32], lo: usize, hi: usize) -> usize
    requires { (hi ≤ 2048) × (hi ≤ 32 * length words.now) }
    ensures { result ≡ first_from (λ b. not (free_in words.now b)) hi lo (hi - lo) }
{
    first_seen::<false>(words, lo, hi)
}

// A number below two times n, round to 0 from n on.
fn round_of(n: usize, i: usize) -> usize
    requires { i < n + n }
    ensures is { result ≡ i % n }
    ensures below { result < n }
{
    if i < n { i } else { i - n }
}

// The arena where the search of a write begins: (counter + kind) modulo arenas, by subtraction. The counter is below `arenas` and the kind at
// most 2, so the sum is at most `arenas` + 1: with two arenas or more one subtraction is enough, with one arena it takes up to two.
fn start_arena(arenas: usize, counter: usize, kind: usize) -> usize
    requires { (0 < arenas) × (arenas ≤ 16) × (counter < arenas) × (kind ≤ 2) }
    ensures is { result ≡ (counter + kind) % arenas }
    ensures below { result < arenas }
{
    let sum = counter + kind;
    let once = if sum < arenas { sum } else { sum - arenas };
    if once < arenas { once } else { once - arenas }
}

// How many of `most` blocks from block b on come before the first free one in the word of b; `most` where that word has none of them.
fn look(words: &[u32], b: usize, most: usize) -> usize
    requires { (b < 32 * length words.now) × (b ≤ 16384) }
    ensures range { result ≤ most }
    ensures none { (j : ℕ) → j < result → b % 32 + j < 32 → free_in words.now (b + j) ≡ false }
    ensures hit { result < most → (b % 32 + result < 32) × (free_in words.now (b + result) ≡ true) }
{
    let rest = rest_of(words[b >> 5], b);
    if rest != 0 {
        return (rest.trailing_zeros() as usize).min(most);
    }
    most
}

// How many of `most` blocks from block b on come before the first word after that of b which is not 0; `most` where there is none.
fn jump(words: &[u32], b: usize, most: usize) -> usize
    requires { (0 < most) × (b + most ≤ 16384) × (b + most ≤ 32 * length words.now) }
    ensures range { (0 < result) × (result ≤ most) }
    ensures none { (j : ℕ) → j < result → 32 ≤ b % 32 + j → free_in words.now (b + j) ≡ false }
{
    let k = next_word(words, (b >> 5) + 1, (b + most + 31) >> 5, 0);
    (32 * k - b).min(most)
}

// Is none of the blocks below `all` free? One pass over the words, compiled to wide steps.
fn none_free(words: &[u32], all: usize) -> bool
    requires { (all ≤ 16384) × (all ≤ 32 * length words.now) }
    ensures { result ≡ true → (b : ℕ) → b < all → free_in words.now b ≡ false }
{
    let n = (all + 31) >> 5;
    let mut bits = 0u32;
    for word in &words[..n] {
        bits |= *word;
    }
    bits == 0
}

// The first arena after `arena` that has a free block; `arenas` where none of those after it has one. It does not divide.
#[tactic(auto, using(crate::proofs::Skips::few))]
fn arena_after(words: &[u32], arenas: usize, per: usize, arena: usize) -> usize
    requires { (arena < arenas) × (arenas ≤ 16) × (0 < per) × (per ≤ 1024) × (arenas * per ≤ 32 * length words.now) }
    ensures range { (arena < result) × (result ≤ arenas) }
    ensures none { (b : ℕ) → arena * per + per ≤ b → b < result * per → free_in words.now b ≡ false }
{
    let free = first_given(words, arena * per + per, arenas * per);
    (arena + 1..arenas)
        .find(|next| free < next * per + per)
        .unwrap_or(arenas)
}

// The first free block: from the arena of the counter and the kind on, round; in each arena from its mark on, round. `words` are the free
// words of the tables, a bit a block; `marks` are the arenas' marks. Each turn of the inner loop looks at what is left of one word, from
// `at` up to `end`; the first `more` blocks of the arena come after. Where that word has no free block, either no word has one, and the
// search ends, or the step passes over the words that are 0. The step of the outer loop passes over the arenas that have no free block.
pub fn choose(
    words: &[u32],
    marks: &[u32],
    arenas: usize,
    per: usize,
    counter: usize,
    kind: usize,
) -> Option<Place>
    requires { Searchable words.now marks.now arenas per counter kind }
    ensures { result ≡ chosen (free_in words.now) (mark_in marks.now) arenas per (counter + kind) }
{
    let mut arena = start_arena(arenas, counter, kind);
    let mut tried: usize = 0;
    let found = 'search: loop {
        if arenas <= tried {
            break 'search None;
        }
        let mark = marks[arena] as usize;
        let mut at = mark;
        let mut end = per;
        let mut more = mark;
        while at < end {
            let block = arena * per + at;
            let near = look(words, block, end - at);
            if near < end - at {
                let offset = at + near;
                break 'search Some(Place { arena, offset });
            }
            if none_free(words, arenas * per) {
                break 'search None;
            }
            at += jump(words, block, end - at);
            if end <= at {
                at = 0;
                end = more;
                more = 0;
            }
        }
        let next = arena_after(words, arenas, per, arena);
        tried += next - arena;
        arena = round_of(arenas, next);
    };
    found
}

// The word of n places: bit k is 1 where `is` says so of place k. With a constant n the loop is compiled to wide steps.
#[inline(always)]
pub fn word_where<F: Fn(usize) -> bool>(n: usize, is: F) -> u32
    requires few { n ≤ 32 }
    requires callable { (k : ℕ) → k < n → F.pre is k }
    ensures fits { result < 2 ^ n }
    ensures bits { (k : ℕ) → k < n → F.post is k (bit result k) }
{
    let mut word = 0u32;
    for k in 0..n {
        if is(k) {
            word |= 1u32 << k;
        }
    }
    word
}

// The free word of the n blocks whose births stand from `at` on. Callers say 32 for a whole word.
#[inline(always)]
pub fn bits_of(births: &[u32], at: usize, n: usize) -> u32
    requires { (n ≤ 32) × (at + n ≤ length births.now) }
    ensures { result ≡ word_of (born_free births.now) at n }
{
    word_where(n, |k| births[at + k] == 0)
}

// The free word of the blocks from 32 k on, of n blocks: of 32 blocks, of those that are left, or of none.
fn born_word(births: &[u32], n: usize, k: usize) -> u32
    requires { (k < 64) × (n ≤ 2048) × (n ≤ length births.now) }
    ensures { result ≡ word_of (born_free births.now) (32 * k) (min 32 (n - 32 * k)) }
{
    if 32 * k + 32 <= n {
        bits_of(births, 32 * k, 32)
    } else if 32 * k < n {
        bits_of(births, 32 * k, n - 32 * k)
    } else {
        0
    }
}

// Do the 64 words agree with the births of n blocks: a bit is 1 where the birth is 0, and 0 after the last block?
pub fn words_agree(words: &[u32], births: &[u32], n: usize) -> bool
    requires { (64 ≤ length words.now) × (n ≤ 2048) × (n ≤ length births.now) }
    ensures { result ≡ words_agree words.now (born_free births.now) n 64 }
{
    (0..64).all(|k| words[k] == born_word(births, n, k))
}

// The arena counter, and the accepted writes since it last went up.
#[derive(Clone, Copy)]
pub struct Turn {
    pub counter: usize,
    pub writes: usize,
}

// One accepted write more.
pub fn turned_by(t: Turn, arenas: usize, turn: usize) -> Turn
    requires { (t.counter < arenas) × (arenas ≤ 16) × (t.writes < turn) × (turn ≤ 4096) }
    ensures is { result ≡ turned arenas turn t }
    ensures range { (result.counter < arenas) × (result.writes < turn) }
{
    let counter = t.counter;
    let writes = t.writes + 1;
    if writes == turn {
        return Turn {
            counter: next_of(arenas, counter),
            writes: 0,
        };
    }
    Turn { counter, writes }
}
