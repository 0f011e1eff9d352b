// Whether an S is refused, and on which slots it works.
ghost use Rattle.std.specs.Prelude.{◌≡◌};
ghost use Rattle.tables.specs.Ready.{Ready, LinkOf};
ghost use Rattle.lines.specs.Verdicts.{numbered};
ghost use Rattle.retaining.specs.Verdicts.{verdict_on};

use answer::Refusal;
use geometry::Geometry;
use lines::verdict::room;
use tables::cells::OPEN;

// The verdict on S of the record of number n, with its link: it may not be sealed, and `room` says the rest.
// Kept: `forking` refuses just the other records; one function with a flag for which would be no plainer.
pub fn sealing(t: &[u32], g: Geometry, n: u32, link: usize) -> Result<(usize, usize), Refusal>
    requires { Ready g t.now × LinkOf g t.now n link }
    ensures { numbered result ≡ verdict_on g t.now n }
{
    if link == 0 {
        return Err(Refusal::NoSuchRecord);
    }
    if t[OPEN + (link - 1)] == 0 {
        return Err(Refusal::WrongState);
    }
    room(t, g, link - 1)
}
