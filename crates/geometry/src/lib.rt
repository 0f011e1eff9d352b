// The six numbers that a store is made from, and their limits.
#![tactic(auto)]

ghost use Rattle.std.specs.Prelude.{◌≡◌};
ghost use Rattle.geometry.specs.Limits.{within, AsksFor, making_of};
ghost use Rattle.geometry.specs.Making.{reply_of, making};

use answer::Refusal;

// Six numbers that a store is asked for by: any numbers.
#[derive(Clone, Copy, Debug, PartialEq, Eq)]
pub struct Numbers {
    pub arenas: usize,
    pub per: usize,
    pub pages: usize,
    pub records: usize,
    pub turn: usize,
    pub words: usize,
}

impl Numbers {
    pub fn of(
        arenas: usize,
        per: usize,
        pages: usize,
        records: usize,
        turn: usize,
        words: usize,
    ) -> Numbers
        ensures { result ≡ record { arenas = arenas; per = per; pages = pages; records = records; turn = turn; words = words } }
    {
        Numbers {
            arenas,
            per,
            pages,
            records,
            turn,
            words,
        }
    }
}

impl From<Geometry> for Numbers {
    ghost from_gives = { AsksFor };

    fn from(g: Geometry) -> Numbers {
        Numbers::of(g.arenas, g.per, g.pages, g.records, g.turn, g.words)
    }
}

#[derive(Clone, Copy, Debug, PartialEq, Eq)]
pub struct Geometry {
    pub arenas: usize,
    // Blocks in each arena.
    pub per: usize,
    pub pages: usize,
    // Records (snapshots) in the store at one time.
    pub records: usize,
    // Accepted writes after which the arena counter goes up.
    pub turn: usize,
    pub words: usize,
}

// Whether x lies from lo to hi.
fn inside(lo: usize, x: usize, hi: usize) -> bool
    ensures { result ≡ within lo x hi }
{
    lo <= x && x <= hi
}

impl Geometry {
    pub const MIN_ARENAS: usize = 1;

    pub const MAX_ARENAS: usize = 16;

    pub const MIN_PER: usize = 1;

    pub const MAX_PER: usize = 1024;

    pub const MAX_BLOCKS: usize = 2048;

    pub const MIN_PAGES: usize = 1;

    pub const MAX_PAGES: usize = 256;

    pub const MIN_RECORDS: usize = 1;

    pub const MAX_RECORDS: usize = 64;

    pub const MIN_TURN: usize = 1;

    pub const MAX_TURN: usize = 4096;

    pub const MAX_WORDS: usize = 8192;

    // All six at their least: log words from 2 x N + 2 on.
    pub const LEAST: Geometry = Geometry {
        arenas: Geometry::MIN_ARENAS,
        per: Geometry::MIN_PER,
        pages: Geometry::MIN_PAGES,
        records: Geometry::MIN_RECORDS,
        turn: Geometry::MIN_TURN,
        words: 2 * (Geometry::MIN_ARENAS * Geometry::MIN_PER) + 2,
    };

    // Numbers of the tables that are enough for every geometry.
    pub const MOST_TABLES: usize = 43008;

    // Bytes of the log that are enough for every geometry: 8 a word.
    pub const MOST_LOG: usize = 65536;

    // Numbers of the result buffer that are enough for every call.
    pub const MOST_OUT: usize = 4160;

    // The geometry of six numbers, refused where one lies outside its limits.
    pub fn new(numbers: Numbers) -> Result<Geometry, Refusal>
        ensures is { result ≡ making_of numbers.arenas numbers.per numbers.pages numbers.records numbers.turn numbers.words }
        ensures reply { reply_of result ≡ making numbers.arenas numbers.per numbers.pages numbers.records numbers.turn numbers.words }
    {
        if !inside(Geometry::MIN_ARENAS, numbers.arenas, Geometry::MAX_ARENAS) {
            return Err(Refusal::OutsideLimits);
        }
        if !inside(Geometry::MIN_PER, numbers.per, Geometry::MAX_PER) {
            return Err(Refusal::OutsideLimits);
        }
        let blocks = numbers.arenas * numbers.per;
        if Geometry::MAX_BLOCKS < blocks {
            return Err(Refusal::OutsideLimits);
        }
        if !inside(Geometry::MIN_PAGES, numbers.pages, Geometry::MAX_PAGES) {
            return Err(Refusal::OutsideLimits);
        }
        if !inside(
            Geometry::MIN_RECORDS,
            numbers.records,
            Geometry::MAX_RECORDS,
        ) {
            return Err(Refusal::OutsideLimits);
        }
        if !inside(Geometry::MIN_TURN, numbers.turn, Geometry::MAX_TURN) {
            return Err(Refusal::OutsideLimits);
        }
        if !inside(2 * blocks + 2, numbers.words, Geometry::MAX_WORDS) {
            return Err(Refusal::OutsideLimits);
        }
        Ok(Geometry {
            arenas: numbers.arenas,
            per: numbers.per,
            pages: numbers.pages,
            records: numbers.records,
            turn: numbers.turn,
            words: numbers.words,
        })
    }
}

// A geometry with the same numbers. What is handed to a function that stands apart has to be in memory: the call of such a function makes its own copy, so
// that the six numbers are not written there for every call of a script.
pub fn copied(g: Geometry) -> Geometry
    ensures { result ≡ g }
{
    Geometry {
        arenas: g.arenas,
        per: g.per,
        pages: g.pages,
        records: g.records,
        turn: g.turn,
        words: g.words,
    }
}
