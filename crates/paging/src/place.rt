// A free block goes on a page: its search, its birth, and the mark and the turn that it moves.
ghost use Rattle.std.specs.Prelude.{◌≡◌, ◌+◌, ◌*◌, ◌<◌, get_or};
ghost use Rattle.geometry.specs.Limits.{blocks};
ghost use Rattle.choice.specs.Search.{place_at};
ghost use Rattle.model.specs.Calls.{found, given};
ghost use Rattle.model.specs.Layout.{view_of, state_of, stored};
ghost use Rattle.tables.specs.Ready.{Ready};
ghost use Rattle.paging.specs.Target.{Target, frees_of};
ghost use Rattle.paging.specs.Kill.{killed_of};
ghost use Rattle.paging.specs.Kind.{kind_number};
ghost use Rattle.paging.specs.Place.{Storable, FreeAt, spot_of, placed, filled};

use crate::kill::{Freed, kill_on};
use crate::kind::Kind;
use choice::{Place, Turn, choose, next_of, turned_by};
use geometry::Geometry;
use tables::births::give_block;
use tables::cells::{COUNTER, FREE, MARKS, NUMBER, PAGES, ROW, WRITES};
use tables::find::wide;

// Where the block stands that a write is given, with its birth: the number of the record that is written.
#[derive(Clone, Copy, Debug, PartialEq, Eq)]
pub struct Spot {
    pub place: Place,
    pub birth: u32,
}

// The block that a write of the kind is given, and its birth: it is born in the open record of that number.
pub fn search(t: &[u32], g: Geometry, number: u32, kind: Kind) -> Option<Spot>
    requires { Ready g t.now }
    ensures { result ≡ spot_of number (found g (state_of g t.now) (kind_number kind)) }
{
    let place = choose(
        &t[FREE..FREE + 64],
        &t[MARKS..MARKS + 16],
        g.arenas,
        g.per,
        wide(t[COUNTER]),
        kind.number(),
    )?;
    Some(Spot {
        place,
        birth: number,
    })
}

// Block b, born in the record in slot s, goes on its empty page x.
fn put_block(t: &mut [u32], g: Geometry, s: usize, x: usize, b: usize)
    requires { Storable g t.old × (s < g.records) × (0 < (view_of g t.old).num s) × (x < g.pages) × (b < blocks g) }
    ensures { t.new ≡ stored g (placed (state_of g t.old) s x b) t.old }
{
    let number = t[NUMBER + s];
    t[PAGES + ROW * s + x] = (b + 1) as u32;
    give_block(t, g, b, number);
}

// The mark of arena a moves to after offset o, and a turn may end.
fn turn_on(t: &mut [u32], g: Geometry, a: usize, o: usize)
    requires { Storable g t.old × (a < g.arenas) × (o < g.per) × (get_or t.old 7 0 < g.arenas) × (get_or t.old 8 0 < g.turn) }
    ensures { t.new ≡ stored g (given g (state_of g t.old) (place_at a o)) t.old }
{
    let turned = turned_by(
        Turn {
            counter: wide(t[COUNTER]),
            writes: wide(t[WRITES]),
        },
        g.arenas,
        g.turn,
    );
    t[MARKS + a] = next_of(g.per, o) as u32;
    t[COUNTER] = turned.counter as u32;
    t[WRITES] = turned.writes as u32;
}

// The block at that place goes on page x of the record in slot s; the block that was there is killed. Returns that block if it is freed.
pub fn fill_page(t: &mut [u32], g: Geometry, s: usize, x: usize, place: Place) -> Option<Freed>
    requires { Target g t.old s x × FreeAt g t.old place.arena place.offset }
    ensures freed { result ≡ killed_of (view_of g t.old).birth (frees_of g t.old s x) }
    ensures tables { t.new ≡ stored g (filled g t.old s x place.arena place.offset) t.old }
{
    let killed = kill_on(t, g, s, x);
    put_block(t, g, s, x, place.arena * g.per + place.offset);
    turn_on(t, g, place.arena, place.offset);
    killed
}
