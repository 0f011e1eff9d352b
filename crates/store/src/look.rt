// A look at any memory, checked in full as every call is; tables and log are lent to be read.
ghost use Rattle.geometry.specs.Limits.{asked};
ghost use Rattle.model.specs.Command.{command};
ghost use Rattle.model.specs.Memory.{lent};
ghost use Rattle.engine.specs.Looks.{look_call};
ghost use Rattle.store.specs.Called.{Called};

use crate::admit::admitted;
use answer::Answer;
use engine::looks;
use engine::looks::record_seen;
use geometry::Numbers;
use tables::find::slot_of;

pub fn look(numbers: Numbers, tables: &[u32], log: &[u8], out: &mut [u32], c: looks::Look) -> Answer
    ensures { Called (asked numbers)
        (lent tables.now log.now out.old) (command (look_call c)) result
        (lent tables.now log.now out.new) }
{
    let g = admitted(numbers, tables, log, out)?;
    let link = slot_of(tables, g, record_seen(c));
    engine::look(g, tables, out, c, link)
}
