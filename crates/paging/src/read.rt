// R: the block on a page, with its birth.
ghost use Rattle.std.specs.Prelude.{◌≡◌};
ghost use Rattle.answer.specs.Reply.{reply_of};
ghost use Rattle.model.specs.Command.{Read};
ghost use Rattle.tables.specs.Ready.{Ready, OutLong, LinkOf};
ghost use Rattle.tables.specs.Outcome.{replied, out_left};

use answer::{Answer, Refusal};
use geometry::Geometry;
use tables::cells::{PAGES, ROW, ROWS};
use tables::find::wide;

// R on the record of number n, with its link.
pub fn read(g: Geometry, t: &[u32], out: &mut [u32], n: u32, link: usize, page: u32) -> Answer
    requires { Ready g t.now × OutLong g out.old × LinkOf g t.now n link }
    ensures reply { reply_of result out.new ≡ replied g t.now (Read n page) }
    ensures out { out.new ≡ out_left g t.now out.old (Read n page) }
{
    if g.pages <= wide(page) {
        return Err(Refusal::NoSuchPage);
    }
    if link == 0 {
        return Err(Refusal::NoSuchRecord);
    }
    let there = wide(t[PAGES + ROW * (link - 1) + wide(page)]);
    if there == 0 {
        return Ok(0);
    }
    let b = there - 1;
    out[0] = b as u32;
    out[1] = t[PAGES + ROWS * g.records + b];
    Ok(2)
}
