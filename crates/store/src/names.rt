// The calls of names on any memory, checked in full as every call is. The name is any bytes. N and U write the tables alone, M the result buffer alone.
ghost use Rattle.geometry.specs.Limits.{asked};
ghost use Rattle.model.specs.Command.{Attach, Detach, Resolve};
ghost use Rattle.model.specs.Memory.{lent};
ghost use Rattle.store.specs.Called.{Called};

use crate::admit::admitted;
use answer::Answer;
use geometry::Numbers;
use tables::find::slot_of;

// N: the name goes on the record of that number.
pub fn attach(
    numbers: Numbers,
    tables: &mut [u32],
    log: &[u8],
    out: &[u32],
    name: &[u8],
    number: u32,
) -> Answer
    ensures { Called (asked numbers)
        (lent tables.old log.now out.now) (Attach name.now number) result
        (lent tables.new log.now out.now) }
{
    let g = admitted(numbers, tables, log, out)?;
    let link = slot_of(tables, g, number);
    naming::attach(g, tables, name, number, link)
}

// U: the name is taken off its record.
pub fn detach(numbers: Numbers, tables: &mut [u32], log: &[u8], out: &[u32], name: &[u8]) -> Answer
    ensures { Called (asked numbers)
        (lent tables.old log.now out.now) (Detach name.now) result
        (lent tables.new log.now out.now) }
{
    let g = admitted(numbers, tables, log, out)?;
    naming::detach(g, tables, name)
}

// M: the number of the record that the name is on.
pub fn resolve(numbers: Numbers, tables: &[u32], log: &[u8], out: &mut [u32], name: &[u8]) -> Answer
    ensures { Called (asked numbers)
        (lent tables.now log.now out.old) (Resolve name.now) result
        (lent tables.now log.now out.new) }
{
    let g = admitted(numbers, tables, log, out)?;
    naming::resolve(g, tables, out, name)
}
