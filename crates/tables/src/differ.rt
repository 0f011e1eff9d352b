// Where two rows of numbers differ, as the bits of a word: bit k is 1 where place k differs.
ghost use Rattle.std.specs.Prelude.{◌≡◌, ◌+◌, ◌≤◌, ◌<◌, min, length};
ghost use Rattle.choice.specs.Words.{word_of};
ghost use Rattle.model.specs.Layout.{view_of};
ghost use Rattle.tables.specs.Ready.{Roomy};
ghost use Rattle.tables.specs.Rows.{differs};

use crate::cells::{PAGES, ROW};
use choice::word_where;
use geometry::Geometry;

// The n pages of slot s from x on that differ from those of the record behind the link; with no record there, those that have a block.
// Callers say 32 for a whole word: with a constant it is compiled to wide steps.
#[inline(always)]
fn pages_word(g: Geometry, t: &[u32], s: usize, link: usize, x: usize, n: usize) -> u32
    requires { Roomy g t.now × (s < g.records) × (link ≤ g.records) × (n ≤ 32) × (x + n ≤ g.pages) }
    ensures { result ≡ word_of (differs (view_of g t.now) s link) x n }
{
    let a = PAGES + ROW * s + x;
    if link == 0 {
        return word_where(n, |k| t[a + k] != 0);
    }
    let b = PAGES + ROW * (link - 1) + x;
    word_where(n, |k| t[a + k] != t[b + k])
}

// The same, with a whole word told apart from the last pages of a row.
pub fn differing(g: Geometry, t: &[u32], s: usize, link: usize, x: usize, n: usize) -> u32
    requires { Roomy g t.now × (s < g.records) × (link ≤ g.records) × (n ≤ 32) × (x + n ≤ g.pages) }
    ensures { result ≡ word_of (differs (view_of g t.now) s link) x n }
{
    if n == 32 {
        return pages_word(g, t, s, link, x, 32);
    }
    pages_word(g, t, s, link, x, n)
}

// The same of 32 pages: for the check of a stranger's rows, whose loop over whole words has nothing of the last pages in it.
pub fn differing_whole(g: Geometry, t: &[u32], s: usize, link: usize, x: usize) -> u32
    requires { Roomy g t.now × (s < g.records) × (link ≤ g.records) × (x + 32 ≤ g.pages) }
    ensures { result ≡ word_of (differs (view_of g t.now) s link) x 32 }
{
    pages_word(g, t, s, link, x, 32)
}

// How many pages the next word of a row is for, of those that are left.
pub fn stretch(left: usize) -> usize
    ensures is { result ≡ min left 32 }
    ensures range { (result ≤ left) × (result ≤ 32) × (0 < left → 0 < result) }
{
    left.min(32)
}
