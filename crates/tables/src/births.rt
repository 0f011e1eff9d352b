// A block is given, queued, freed, or released: its birth, its bit of the free words, and its place in the queue and among those that wait.
ghost use Rattle.std.specs.Prelude.{◌≡◌, ◌<◌, ◌≤◌, length, get_or};
ghost use Rattle.geometry.specs.Limits.{Inside, blocks};
ghost use Rattle.model.specs.Layout.{queue_cell, queue_birth_cell, wait_cell, state_of, stored};
ghost use Rattle.model.specs.State.{synced};
ghost use Rattle.tables.specs.Ready.{Roomy, Ready};
ghost use Rattle.tables.specs.Births.{gave, queued, waited, freed, raised};

use crate::cells::{FREE, PAGES, QUEUED, ROWS, WAITS};
use crate::find::wide;
use choice::bit_of;
use geometry::Geometry;

// Block b is born in the record of number n: it may not be given from now on.
pub fn give_block(t: &mut [u32], g: Geometry, b: usize, n: u32)
    requires { Roomy g t.old × (b < blocks g) }
    ensures { t.new ≡ gave g.records t.old b n }
{
    let word = t[FREE + (b >> 5)] & !bit_of(b);
    t[PAGES + ROWS * g.records + b] = n;
    t[FREE + (b >> 5)] = word;
}

// Where the queue begins: its blocks, in order.
// Kept: this function and the next two have one form, since their names say more at a call than a number from 1 to 3.
pub fn queue_at(g: Geometry) -> usize
    requires { Inside g }
    ensures { result ≡ queue_cell g.records (blocks g) 0 }
{
    PAGES + ROWS * g.records + g.arenas * g.per
}

// Where the births of queued blocks begin: a number for each block, 0 where it is not queued.
pub fn queue_births_at(g: Geometry) -> usize
    requires { Inside g }
    ensures { result ≡ queue_birth_cell g.records (blocks g) 0 }
{
    PAGES + ROWS * g.records + 2 * (g.arenas * g.per)
}

// Where the list of the blocks that wait begins.
pub fn waiting_at(g: Geometry) -> usize
    requires { Inside g }
    ensures { result ≡ wait_cell g.records (blocks g) 0 }
{
    PAGES + ROWS * g.records + 3 * (g.arenas * g.per)
}

// Block b is on no page from now on, and is queued with its birth: it joins the queue at its end. Its bit of the free words is 0, as it was while it was on
// a page.
pub fn queue_block(t: &mut [u32], g: Geometry, b: usize)
    requires { Roomy g t.old × (b < blocks g) × (get_or t.old 10 0 < blocks g) }
    ensures { t.new ≡ queued g.records (blocks g) t.old b }
{
    let n = wide(t[QUEUED]);
    t[queue_births_at(g) + b] = t[PAGES + ROWS * g.records + b];
    t[PAGES + ROWS * g.records + b] = 0;
    t[queue_at(g) + n] = b as u32;
    t[QUEUED] = (n + 1) as u32;
}

// Block b waits: it joins the list at its end. Its bit of the free words is 0, as it was while it was held.
pub fn wait_block(t: &mut [u32], g: Geometry, b: usize)
    requires { Roomy g t.old × (b < blocks g) × (get_or t.old 11 0 < blocks g) }
    ensures { t.new ≡ waited g.records (blocks g) t.old b }
{
    let n = wide(t[WAITS]);
    t[waiting_at(g) + n] = b as u32;
    t[WAITS] = (n + 1) as u32;
}

// Block b has no birth, and waits.
pub fn free_block(t: &mut [u32], g: Geometry, b: usize)
    requires { Roomy g t.old × (b < blocks g) × (get_or t.old 11 0 < blocks g) }
    ensures { t.new ≡ freed g.records (blocks g) t.old b }
{
    t[PAGES + ROWS * g.records + b] = 0;
    wait_block(t, g, b);
}

// Block b may be given from now on.
fn raise(t: &mut [u32], b: usize)
    requires { (128 ≤ length t.old) × (b < 2048) }
    ensures { t.new ≡ raised t.old b }
{
    t[FREE + (b >> 5)] |= bit_of(b);
}

// The blocks that wait may be given from now on, and none waits.
pub fn release(t: &mut [u32], g: Geometry)
    requires { Ready g t.old }
    ensures { t.new ≡ stored g (synced (state_of g t.old)) t.old }
{
    let n = wide(t[WAITS]);
    for i in 0..n {
        let b = wide(t[waiting_at(g) + i]);
        raise(t, b);
    }
    t[WAITS] = 0;
}
