// The deadlist of a record: the blocks that are gone from its pages, each once.
ghost use Rattle.std.specs.Prelude.{◌≡◌, ℕ, suc, ◌<◌, ◌≤◌, ◌&&◌, length, ◌==◌};
ghost use Rattle.model.specs.Check.{takes?};
ghost use Rattle.model.specs.Stamps.{stamps};
ghost use Rattle.tables.specs.Lent.{view_in};
ghost use Rattle.soundness.specs.Pages.{seen};

use tables::cells::{LENGTH, PAGES, ROW};
use tables::find::wide;
use tables::lent::Tables;

// The deadlist of slot s has `count` entries, each with the stamp of the slot, which it takes off.
pub fn list_fits(tables: &Tables, gone: &mut [u8; 2048], s: usize, count: usize) -> bool
    requires { (s < tables.now.g.records) × (count ≤ 256) × (length gone.old ≡ 2048) }
    ensures is { result ≡ (length ((view_in tables.now).list s) == count && takes? (stamps (suc s) (seen gone.old)) ((view_in tables.now).list s)) }
    ensures stamps { (length gone.new ≡ 2048) × ((b : ℕ) → seen gone.new b ≤ seen gone.old b) }
{
    if wide(tables.cells[LENGTH + s]) != count {
        return false;
    }
    let list = PAGES + ROW * tables.g.records + ROW * s;
    for x in &tables.cells[list..list + count] {
        let b = wide(*x);
        if 2048 <= b {
            return false;
        }
        if usize::from(gone[b]) != s + 1 {
            return false;
        }
        gone[b] = 0;
    }
    true
}
