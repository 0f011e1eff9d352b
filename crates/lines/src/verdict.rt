// Whether a call that opens a record is refused, and on which slots it works.
ghost use Rattle.std.specs.Prelude.{◌≡◌};
ghost use Rattle.model.specs.Command.{Begin, Fork};
ghost use Rattle.model.specs.Layout.{state_of};
ghost use Rattle.model.specs.Calls.{slot};
ghost use Rattle.tables.specs.Ready.{Roomy, Ready, LinkOf};
ghost use Rattle.lines.specs.Verdicts.{numbered, verdict};

use answer::Refusal;
use geometry::Geometry;
use tables::cells::{LAST, OPEN};
use tables::find::vacant_slot;

// The slot of the record that a call is on and the empty slot, or the refusals of a full table and of spent numbers; B meets no others.
// B, S and F ask it; it is compiled into each.
#[inline(always)]
pub fn room(t: &[u32], g: Geometry, s: usize) -> Result<(usize, usize), Refusal>
    requires { Roomy g t.now }
    ensures { numbered result ≡ verdict g t.now Begin s }
{
    let Some(empty) = vacant_slot(t, g) else {
        return Err(Refusal::TableFull);
    };
    if 999999 <= t[LAST] {
        return Err(Refusal::NumbersSpent);
    }
    Ok((s, empty))
}

// The verdict on F of the record of number n, with its link: it may not be open.
pub fn forking(t: &[u32], g: Geometry, n: u32, link: usize) -> Result<(usize, usize), Refusal>
    requires { Ready g t.now × LinkOf g t.now n link }
    ensures { numbered result ≡ verdict g t.now (Fork n) (slot (state_of g t.now) n) }
{
    if link == 0 {
        return Err(Refusal::NoSuchRecord);
    }
    if 0 < t[OPEN + (link - 1)] {
        return Err(Refusal::WrongState);
    }
    room(t, g, link - 1)
}
