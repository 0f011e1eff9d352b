// W: a free block goes on a page.
ghost use Rattle.std.specs.Prelude.{◌≡◌, ◌∷◌, map, suc, ◌+◌, ◌*◌, ◌-◌, ◌≤◌, length, get_or};
ghost use Rattle.std.proofs.lemmas.List.Edits.{sets};
ghost use Rattle.answer.specs.Reply.{reply_of};
ghost use Rattle.alloc_log.specs.Word.{write_at, bytes_of, allocated, released};
ghost use Rattle.model.specs.Command.{Write};
ghost use Rattle.model.specs.Actions.{do_w};
ghost use Rattle.model.specs.Calls.{acted, given};
ghost use Rattle.model.specs.Layout.{view_of, state_of, stored};
ghost use Rattle.model.specs.Results.{paired};
ghost use Rattle.tables.specs.Ready.{Ready, OutLong, LogLong, LinkOf};
ghost use Rattle.tables.specs.Outcome.{replied, tables_left, log_left, out_left};
ghost use Rattle.paging.specs.Target.{Target, frees_of};
ghost use Rattle.paging.specs.Place.{FreeAt};
ghost use Rattle.paging.specs.WriteVerdict.{Judged};

use crate::kind::Kind;
use crate::place::{Spot, fill_page, search};
use crate::words::log_words;
use answer::{Answer, Refusal};
use choice::Place;
use geometry::{Geometry, copied};
use tables::cells::{OPEN, USED};
use tables::find::wide;
use tables::links::frees_on;

// The slot of the record that a write works on, the place of its block and the block's birth, or why it is refused.
fn write_verdict(
    t: &[u32],
    g: Geometry,
    n: u32,
    link: usize,
    page: u32,
    kind: u32,
) -> Result<(usize, Spot), Refusal>
    requires { Ready g t.now × LinkOf g t.now n link }
    ensures { Judged g t.now n page kind result }
{
    if g.pages <= wide(page) {
        return Err(Refusal::NoSuchPage);
    }
    let kind = Kind::try_from(kind)?;
    if link == 0 {
        return Err(Refusal::NoSuchRecord);
    }
    let s = link - 1;
    if t[OPEN + s] == 0 {
        return Err(Refusal::WrongState);
    }
    let Some(spot) = search(t, g, n, kind) else {
        return Err(Refusal::NoFreeBlock);
    };
    // Two words are enough: at most one block is freed.
    let unused = g.words - wide(t[USED]);
    if 1 < unused {
        return Ok((s, spot));
    }
    if unused < 1 + frees_on(t, copied(g), s, wide(page)) {
        return Err(Refusal::LogFull);
    }
    Ok((s, spot))
}

// The block at that place, with its birth, goes on page x of the open record in slot s: into the log and the result, and after it the block freed.
fn write_page(
    g: Geometry,
    t: &mut [u32],
    log: &mut [u8],
    out: &mut [u32],
    s: usize,
    x: usize,
    place: Place,
    birth: u32,
) -> usize
    requires { Target g t.old s x × FreeAt g t.old place.arena place.offset
        × (suc (length (frees_of g t.old s x)) ≤ g.words - get_or t.old 9 0) × LogLong g log.old × OutLong g out.old }
    ensures count { result ≡ 2 + 2 * length (frees_of g t.old s x) }
    ensures tables { t.new ≡ stored g (given g (acted (state_of g t.old) (do_w s x (place.arena * g.per + place.offset))
        (suc (length (map released (frees_of g t.old s x))))) (Some place)) t.old }
    ensures log { log.new ≡ write_at log.old (8 * (state_of g t.old).used)
        (bytes_of (allocated (place.arena * g.per + place.offset) ∷ map released (frees_of g t.old s x))) }
    ensures out { out.new ≡ sets out.old 0 ((place.arena * g.per + place.offset) ∷ birth ∷ paired (view_of g t.old).birth (frees_of g t.old s x)) }
{
    let killed = fill_page(t, g, s, x, place);
    let b = place.arena * g.per + place.offset;
    out[0] = b as u32;
    out[1] = birth;
    let given = (b * 16384 + 1) as u64;
    let Some(freed) = killed else {
        log_words(t, log, &[given]);
        return 2;
    };
    let released = (freed.block * 16384 + 2) as u64;
    log_words(t, log, &[given, released]);
    out[2] = freed.block as u32;
    out[3] = freed.birth;
    4
}

// W on the record of number n, with its link.
pub fn write(
    g: Geometry,
    t: &mut [u32],
    log: &mut [u8],
    out: &mut [u32],
    n: u32,
    link: usize,
    page: u32,
    kind: u32,
) -> Answer
    requires { Ready g t.old × LogLong g log.old × OutLong g out.old × LinkOf g t.old n link }
    ensures reply { reply_of result out.new ≡ replied g t.old (Write n page kind) }
    ensures tables { t.new ≡ tables_left g t.old (Write n page kind) }
    ensures log { log.new ≡ log_left g t.old log.old (Write n page kind) }
    ensures out { out.new ≡ out_left g t.old out.old (Write n page kind) }
{
    let (s, spot) = write_verdict(t, g, n, link, page, kind)?;
    Ok(write_page(g, t, log, out, s, wide(page), spot.place, spot.birth))
}
