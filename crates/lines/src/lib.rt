// The calls that begin a line, B and F (F gets the link of its record), and the seal of S.
#![tactic(auto)]

pub mod grow;
pub mod verdict;

ghost use Rattle.std.specs.Prelude.{◌≡◌};
ghost use Rattle.answer.specs.Reply.{reply_of};
ghost use Rattle.model.specs.Command.{Begin, Fork};
ghost use Rattle.tables.specs.Ready.{Ready, OutLong, LinkOf};
ghost use Rattle.tables.specs.Outcome.{replied, tables_left, out_left};

use crate::grow::{begin_at, fork_at};
use crate::verdict::{forking, room};
use answer::Answer;
use geometry::Geometry;

// B: an empty open record in a new line.
pub fn begin(g: Geometry, t: &mut [u32], out: &mut [u32]) -> Answer
    requires { Ready g t.old × OutLong g out.old }
    ensures reply { reply_of result out.new ≡ replied g t.old Begin }
    ensures tables { t.new ≡ tables_left g t.old Begin }
    ensures out { out.new ≡ out_left g t.old out.old Begin }
{
    let (_, f) = room(t, g, 0)?;
    out[0] = begin_at(t, g, f);
    Ok(1)
}

// F: a new line with an open record that has the pages of a sealed one.
pub fn fork(g: Geometry, t: &mut [u32], out: &mut [u32], n: u32, link: usize) -> Answer
    requires { Ready g t.old × OutLong g out.old × LinkOf g t.old n link }
    ensures reply { reply_of result out.new ≡ replied g t.old (Fork n) }
    ensures tables { t.new ≡ tables_left g t.old (Fork n) }
    ensures out { out.new ≡ out_left g t.old out.old (Fork n) }
{
    let (s, f) = forking(t, g, n, link)?;
    out[0] = fork_at(t, g, f, s);
    Ok(1)
}
