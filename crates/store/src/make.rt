// The making of a store on any memory that is long enough.
ghost use Rattle.std.specs.Prelude.{◌≡◌, ◌≤◌, ◌<◌, length, replicate};
ghost use Rattle.std.proofs.lemmas.List.Edits.{sets};
ghost use Rattle.answer.specs.Reply.{reply_of};
ghost use Rattle.geometry.specs.Limits.{Inside, asked};
ghost use Rattle.model.specs.Layout.{need, made, listed};
ghost use Rattle.model.specs.Memory.{make_reply, make_after, lent};
ghost use Rattle.store.specs.Fresh.{full_word, six_numbers};

use answer::{Answer, Refusal};
use geometry::{Geometry, Numbers};
use soundness::lengths::is_short;
use tables::cells::{FREE, PAGES, ROWS};

// The free word k of n blocks that may all be given: a bit for each of them.
fn full_word(n: usize, k: usize) -> u32
    requires { (n ≤ 2048) × (k < 64) }
    ensures { result ≡ full_word n k }
{
    let blocks = n.saturating_sub(32 * k).min(32);
    ((1u64 << blocks) - 1) as u32
}

// The free words of n blocks that may all be given.
fn fill_words(t: &mut [u32], n: usize)
    requires { (128 ≤ length t.old) × (n ≤ 2048) }
    ensures { t.new ≡ sets t.old 64 (listed (full_word n) 0 64) }
{
    for k in 0..64 {
        t[FREE + k] = full_word(n, k);
    }
}

// The six numbers of the making, at the start of the tables.
fn put_six(t: &mut [u32], g: Geometry)
    requires { Inside g × (6 ≤ length t.old) }
    ensures { t.new ≡ sets t.old 0 (six_numbers g) }
{
    t[0] = g.arenas as u32;
    t[1] = g.per as u32;
    t[2] = g.pages as u32;
    t[3] = g.records as u32;
    t[4] = g.turn as u32;
    t[5] = g.words as u32;
}

// The tables of a fresh store.
fn fill(t: &mut [u32], g: Geometry)
    requires { Inside g × (need g ≤ length t.old) }
    ensures { t.new ≡ made g t.old }
{
    let blocks = g.arenas * g.per;
    t[..PAGES + ROWS * g.records + 4 * blocks].fill(0);
    fill_words(t, blocks);
    put_six(t, g);
}

pub fn make(numbers: Numbers, tables: &mut [u32], log: &[u8], out: &[u32]) -> Answer
    ensures reply { reply_of result out.now ≡ make_reply (asked numbers) (lent tables.old log.now out.now) }
    ensures tables { tables.new ≡ (make_after (asked numbers) (lent tables.old log.now out.now)).tables }
{
    let g = Geometry::new(numbers)?;
    if is_short(g, tables, log, out) {
        return Err(Refusal::TooShort);
    }
    fill(tables, g);
    Ok(0)
}
