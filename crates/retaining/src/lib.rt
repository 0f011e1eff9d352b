// K: a window on a line. S, and the deletes of its line's window.
#![tactic(auto)]

pub mod line;
pub mod oldest;
pub mod verdict;

ghost use Rattle.std.specs.Prelude.{◌≡◌, List, ℕ, ◌<◌};
ghost use Rattle.answer.specs.Reply.{reply_of};
ghost use Rattle.model.specs.Command.{Seal, Retain};
ghost use Rattle.tables.specs.Ready.{Ready, OutLong, LinkOf};
ghost use Rattle.tables.specs.Outcome.{replied, tables_left, out_left};
ghost use Rattle.retaining.specs.Closing.{Closes, closed_reply, closed_tables, closed_out};

use crate::line::line_of;
use crate::oldest::delete_oldest;
use crate::verdict::sealing;
use answer::{Answer, Refusal};
use geometry::Geometry;
use lines::grow::seal_at;
use tables::cells::{OPEN, WINDOW};
use tables::find::wide;

// K: the line of an open record keeps its newest `most` sealed records from its next S on. It gives no numbers, whatever a result buffer holds.
pub fn retain(g: Geometry, t: &mut [u32], number: u32, link: usize, most: u32) -> Answer
    requires { Ready g t.old × LinkOf g t.old number link }
    ensures reply { (out : List ℕ) → reply_of result out ≡ replied g t.old (Retain number most) }
    ensures tables { t.new ≡ tables_left g t.old (Retain number most) }
{
    if !(1..=62).contains(&most) {
        return Err(Refusal::BadWindow);
    }
    if link == 0 {
        return Err(Refusal::NoSuchRecord);
    }
    if t[OPEN + (link - 1)] == 0 {
        return Err(Refusal::WrongState);
    }
    t[WINDOW + (link - 1)] = most;
    Ok(0)
}

// S on the record in slot s of a line with a window, with the empty slot f: the seal, then the window's deletes.
fn close(g: Geometry, t: &mut [u32], out: &mut [u32], s: usize, f: usize, window: usize) -> Answer
    requires { Ready g t.old × OutLong g out.old × Closes g t.old s f window × (0 < window) }
    ensures reply { reply_of result out.new ≡ closed_reply g t.old }
    ensures tables { t.new ≡ closed_tables g t.old s f window }
    ensures out { out.new ≡ closed_out g t.old out.old }
{
    let mut line = [0u32; 64];
    let count = line_of(t, g, s, &mut line);
    out[0] = seal_at(t, g, f, s);
    delete_oldest(g, t, &line, count, count.saturating_sub(window));
    Ok(1)
}

// S on the record of that number, with its link: it is sealed, and an open record with its pages follows; then, in a line with a window, the oldest sealed
// records without a fork and without a name are deleted. The number of the result is the new record's.
pub fn seal(g: Geometry, t: &mut [u32], out: &mut [u32], n: u32, link: usize) -> Answer
    requires { Ready g t.old × OutLong g out.old × LinkOf g t.old n link }
    ensures reply { reply_of result out.new ≡ replied g t.old (Seal n) }
    ensures tables { t.new ≡ tables_left g t.old (Seal n) }
    ensures out { out.new ≡ out_left g t.old out.old (Seal n) }
{
    let (s, f) = sealing(t, g, n, link)?;
    let window = wide(t[WINDOW + s]);
    if window == 0 {
        out[0] = seal_at(t, g, f, s);
        return Ok(1);
    }
    close(g, t, out, s, f, window)
}
