// Whether a call of a name is refused, and on which row it works.
ghost use Rattle.std.specs.Prelude.{◌≡◌, ◌&&◌, ◌<◌, ltb};
ghost use Rattle.model.specs.Layout.{view_of, state_of};
ghost use Rattle.tables.specs.Ready.{Roomy, Ready, LinkOf};
ghost use Rattle.naming.specs.Verdicts.{verdict_of, attach_verdict, find_verdict};

use crate::letters::is_valid;
use crate::rows::row_of;
use answer::Refusal;
use geometry::Geometry;
use tables::cells::{NAMES, OPEN};
use tables::titles::row_with;

// Whether a name on the record in slot s would be a second one on an open record.
fn is_second(t: &[u32], g: Geometry, s: usize) -> bool
    requires { Roomy g t.now × (s < g.records) }
    ensures { result ≡ (ltb 0 ((view_of g t.now).is_open s) && ltb 0 ((state_of g t.now).notes.names s)) }
{
    t[OPEN + s] != 0 && 0 < t[NAMES + s]
}

// The verdict on N of a name and the record of that number, with its link: 16, 8, then 17 for a name in use, a second one on an open record, or no empty
// row. It is given the first empty row.
pub fn attaching(
    t: &[u32],
    g: Geometry,
    name: &[u8],
    number: u32,
    link: usize,
) -> Result<usize, Refusal>
    requires { Ready g t.now × LinkOf g t.now number link }
    ensures { verdict_of result ≡ attach_verdict g t.now name.now number }
{
    if !is_valid(name) {
        return Err(Refusal::BadName);
    }
    if link == 0 {
        return Err(Refusal::NoSuchRecord);
    }
    if row_of(t, name).is_some() {
        return Err(Refusal::NameUnfit);
    }
    if is_second(t, g, link - 1) {
        return Err(Refusal::NameUnfit);
    }
    row_with(t, 0).ok_or(Refusal::NameUnfit)
}

// The verdict on U or M of a name: 16, then 17 for one that is unknown. It is given the row of the name.
pub fn finding(t: &[u32], g: Geometry, name: &[u8]) -> Result<usize, Refusal>
    requires { Ready g t.now }
    ensures { verdict_of result ≡ find_verdict g t.now name.now }
{
    if !is_valid(name) {
        return Err(Refusal::BadName);
    }
    row_of(t, name).ok_or(Refusal::NameUnfit)
}
