// What a call asks of what it was lent before it acts.
ghost use Rattle.geometry.specs.Limits.{asked};
ghost use Rattle.model.specs.Memory.{lent};
ghost use Rattle.store.specs.Admitted.{Admits};

use answer::Refusal;
use geometry::{Geometry, Numbers};
use soundness::is_sound;
use soundness::lengths::is_short;

// The geometry of six numbers, where the memory is long enough for it, and tables and log are a sound store. Refusals 2, 3, 4.
pub fn admitted(
    numbers: Numbers,
    tables: &[u32],
    log: &[u8],
    out: &[u32],
) -> Result<Geometry, Refusal>
    ensures { Admits (asked numbers)
        (lent tables.now log.now out.now) result }
{
    let g = Geometry::new(numbers)?;
    if is_short(g, tables, log, out) {
        return Err(Refusal::TooShort);
    }
    if !is_sound(g, tables, log) {
        return Err(Refusal::NotSound);
    }
    Ok(g)
}
