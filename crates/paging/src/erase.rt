// E: the page becomes empty.
ghost use Rattle.std.specs.Prelude.{◌≡◌, map, ◌*◌, ◌-◌, ◌≤◌, length, get_or};
ghost use Rattle.std.proofs.lemmas.List.Edits.{sets};
ghost use Rattle.answer.specs.Reply.{reply_of};
ghost use Rattle.alloc_log.specs.Word.{write_at, bytes_of, released};
ghost use Rattle.model.specs.Command.{Erase};
ghost use Rattle.model.specs.Actions.{do_e};
ghost use Rattle.model.specs.Calls.{acted};
ghost use Rattle.model.specs.Layout.{view_of, state_of, stored};
ghost use Rattle.model.specs.Results.{paired};
ghost use Rattle.tables.specs.Ready.{Ready, OutLong, LogLong, LinkOf};
ghost use Rattle.tables.specs.Outcome.{replied, tables_left, log_left, out_left};
ghost use Rattle.paging.specs.Target.{Target, frees_of};
ghost use Rattle.paging.specs.EraseVerdict.{Judged};

use crate::kill::kill_on;
use crate::words::log_words;
use answer::{Answer, Refusal};
use geometry::{Geometry, copied};
use tables::cells::{OPEN, USED};
use tables::find::wide;
use tables::links::frees_on;

// The slot of the record that an E works on, or why it is refused.
fn erase_verdict(t: &[u32], g: Geometry, n: u32, link: usize, page: u32) -> Result<usize, Refusal>
    requires { Ready g t.now × LinkOf g t.now n link }
    ensures { Judged g t.now n page result }
{
    if g.pages <= wide(page) {
        return Err(Refusal::NoSuchPage);
    }
    if link == 0 {
        return Err(Refusal::NoSuchRecord);
    }
    let s = link - 1;
    if t[OPEN + s] == 0 {
        return Err(Refusal::WrongState);
    }
    // One word is enough.
    if wide(t[USED]) < g.words {
        return Ok(s);
    }
    if 0 < frees_on(t, copied(g), s, wide(page)) {
        return Err(Refusal::LogFull);
    }
    Ok(s)
}

// Empties page x of the open record in slot s: a block that is freed goes into the log, and with its birth into the result.
fn erase_page(
    g: Geometry,
    t: &mut [u32],
    log: &mut [u8],
    out: &mut [u32],
    s: usize,
    x: usize,
) -> usize
    requires { Target g t.old s x × (length (frees_of g t.old s x) ≤ g.words - get_or t.old 9 0) × LogLong g log.old × OutLong g out.old }
    ensures count { result ≡ 2 * length (frees_of g t.old s x) }
    ensures tables { t.new ≡ stored g (acted (state_of g t.old) (do_e s x) (length (map released (frees_of g t.old s x)))) t.old }
    ensures log { log.new ≡ write_at log.old (8 * (state_of g t.old).used) (bytes_of (map released (frees_of g t.old s x))) }
    ensures out { out.new ≡ sets out.old 0 (paired (view_of g t.old).birth (frees_of g t.old s x)) }
{
    let Some(freed) = kill_on(t, g, s, x) else {
        return 0;
    };
    log_words(t, log, &[(freed.block * 16384 + 2) as u64]);
    out[0] = freed.block as u32;
    out[1] = freed.birth;
    2
}

// E on the record of number n, with its link.
pub fn erase(
    g: Geometry,
    t: &mut [u32],
    log: &mut [u8],
    out: &mut [u32],
    n: u32,
    link: usize,
    page: u32,
) -> Answer
    requires { Ready g t.old × LogLong g log.old × OutLong g out.old × LinkOf g t.old n link }
    ensures reply { reply_of result out.new ≡ replied g t.old (Erase n page) }
    ensures tables { t.new ≡ tables_left g t.old (Erase n page) }
    ensures log { log.new ≡ log_left g t.old log.old (Erase n page) }
    ensures out { out.new ≡ out_left g t.old out.old (Erase n page) }
{
    let s = erase_verdict(t, g, n, link, page)?;
    Ok(erase_page(g, t, log, out, s, wide(page)))
}
