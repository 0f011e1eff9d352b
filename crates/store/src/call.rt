// Any call of a letter and numbers, checked in full: the six numbers (2), the lengths (3), the tables and the log (4); then it acts.
ghost use Rattle.geometry.specs.Limits.{asked};
ghost use Rattle.model.specs.Command.{command};
ghost use Rattle.model.specs.Memory.{lent};
ghost use Rattle.store.specs.Called.{Called};

use crate::admit::admitted;
use answer::Answer;
use engine::{perform, record_of};
use geometry::Numbers;
use model::Call;
use tables::find::slot_of;

pub fn call(
    numbers: Numbers,
    tables: &mut [u32],
    log: &mut [u8],
    out: &mut [u32],
    c: Call,
) -> Answer
    ensures { Called (asked numbers)
        (lent tables.old log.old out.old) (command c) result
        (lent tables.new log.new out.new) }
{
    let g = admitted(numbers, tables, log, out)?;
    let link = slot_of(tables, g, record_of(c));
    perform(g, tables, log, out, c, link)
}
