// The check of what was lent against what the geometry needs.
ghost use Rattle.std.specs.Prelude.{◌≡◌};
ghost use Rattle.geometry.specs.Limits.{Inside};
ghost use Rattle.model.specs.Memory.{short?, lent};

use geometry::Geometry;
use tables::cells::{PAGES, ROWS};

// Whether the tables, the log or the result buffer is shorter than the geometry needs.
pub fn is_short(g: Geometry, tables: &[u32], log: &[u8], out: &[u32]) -> bool
    requires { Inside g }
    ensures { result ≡ short? g (lent tables.now log.now out.now) }
{
    let blocks = g.arenas * g.per;
    tables.len() < PAGES + ROWS * g.records + 4 * blocks
        || log.len() < 8 * g.words
        || out.len() < 2 * blocks + 64
}
