// Names of records: N puts one on a record, U takes it off, M gives the record's number. A name is lent as bytes, any bytes.
#![tactic(auto)]

pub mod letters;
pub mod rows;
pub mod verdict;

ghost use Rattle.std.specs.Prelude.{◌≡◌, List, ℕ};
ghost use Rattle.answer.specs.Reply.{reply_of};
ghost use Rattle.model.specs.Command.{Attach, Detach, Resolve};
ghost use Rattle.tables.specs.Ready.{Ready, OutLong, LinkOf};
ghost use Rattle.tables.specs.Outcome.{replied, tables_left, out_left};

use crate::rows::{count_up, put_title, take_off};
use crate::verdict::{attaching, finding};
use answer::Answer;
use geometry::Geometry;
use tables::cells::{TITLE, TITLES};
use tables::find::wide;
use tables::links::number_behind;

// N: the name goes on the record of that number, with its link. It gives no numbers, whatever a result buffer holds.
pub fn attach(g: Geometry, t: &mut [u32], name: &[u8], number: u32, link: usize) -> Answer
    requires { Ready g t.old × LinkOf g t.old number link }
    ensures reply { (out : List ℕ) → reply_of result out ≡ replied g t.old (Attach name.now number) }
    ensures tables { t.new ≡ tables_left g t.old (Attach name.now number) }
{
    let i = attaching(t, g, name, number, link)?;
    put_title(t, i, link, name);
    count_up(t, link - 1);
    Ok(0)
}

// U: the name is taken off its record. It gives no numbers either.
pub fn detach(g: Geometry, t: &mut [u32], name: &[u8]) -> Answer
    requires { Ready g t.old }
    ensures reply { (out : List ℕ) → reply_of result out ≡ replied g t.old (Detach name.now) }
    ensures tables { t.new ≡ tables_left g t.old (Detach name.now) }
{
    let i = finding(t, g, name)?;
    take_off(t, i);
    Ok(0)
}

// M: the number of the record that the name is on.
pub fn resolve(g: Geometry, t: &[u32], out: &mut [u32], name: &[u8]) -> Answer
    requires { Ready g t.now × OutLong g out.old }
    ensures reply { reply_of result out.new ≡ replied g t.now (Resolve name.now) }
    ensures out { out.new ≡ out_left g t.now out.old (Resolve name.now) }
{
    let i = finding(t, g, name)?;
    out[0] = number_behind(t, g, wide(t[TITLES + TITLE * i]));
    Ok(1)
}
