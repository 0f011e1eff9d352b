// A part of a script for a host that lends everything, and of whom nothing is trusted: the numbers of the run (2), the lengths (3), once there is a
// store its tables and log (4); then the part is served.
ghost use Rattle.std.specs.Prelude.{◌≡◌, not, ◌&&◌, ◌<◌, ◌≤◌, eqb, length, get_or};
ghost use Rattle.std.proofs.lemmas.List.Edits.{sets};
ghost use Rattle.geometry.specs.Limits.{Inside, fits, most_tables, most_log};
ghost use Rattle.model.specs.Memory.{sound?};
ghost use Rattle.serving.specs.Host.{lent_by, session_of, run_of, lent_short, Hosts, Narrow};

use crate::{LONGEST, serve_part};
use answer::Refusal;
use geometry::{Geometry, Numbers};
use session::Session;
use soundness::is_sound;

// The position after the last line served, and how many bytes of replies stand at the buffer's start.
#[derive(Clone, Copy, Debug, PartialEq, Eq)]
pub struct Extent {
    pub at: usize,
    pub used: usize,
}

// A number of the run, 0 beyond its end.
fn number_in(run: &[u32], i: usize) -> usize
    ensures { (result ≡ get_or run.now i 0) × (result < 4294967296) }
{
    run.get(i).map_or(0, |x| *x as usize)
}

fn session_of(run: &[u32]) -> Session
    ensures is { result ≡ session_of run.now }
    ensures narrow { Narrow result }
{
    Session {
        made: number_in(run, 0),
        g: Geometry {
            arenas: number_in(run, 1),
            per: number_in(run, 2),
            pages: number_in(run, 3),
            records: number_in(run, 4),
            turn: number_in(run, 5),
            words: number_in(run, 6),
        },
    }
}

fn put_run(run: &mut [u32], s: Session)
    requires { (7 ≤ length run.old) × Narrow s }
    ensures { run.new ≡ sets run.old 0 (run_of s) }
{
    run[..7].copy_from_slice(&[
        s.made as u32,
        s.g.arenas as u32,
        s.g.per as u32,
        s.g.pages as u32,
        s.g.records as u32,
        s.g.turn as u32,
        s.g.words as u32,
    ]);
}

// Whether a store was made of numbers that lie outside their limits.
fn is_outside(s: Session) -> bool
    ensures { result ≡ (not (eqb s.made 0) && not (fits s.g)) }
{
    if s.made == 0 {
        return false;
    }
    Geometry::new(Numbers::from(s.g)).is_err()
}

fn is_too_short(run: &[u32], tables: &[u32], log: &[u8], out: &[u32], replies: &[u8]) -> bool
    ensures { result ≡ lent_short (lent_by run.now tables.now log.now out.now replies.now) }
{
    run.len() < 7
        || tables.len() < Geometry::MOST_TABLES
        || log.len() < Geometry::MOST_LOG
        || out.len() < Geometry::MOST_OUT
        || replies.len() < LONGEST
}

// Whether a store was made and its tables and log are not sound.
fn is_unsound(s: Session, tables: &[u32], log: &[u8]) -> bool
    requires { (0 < s.made → Inside s.g) × (most_tables ≤ length tables.now) × (most_log ≤ length log.now) }
    ensures { result ≡ (not (eqb s.made 0) && not (sound? s.g tables.now log.now)) }
{
    s.made != 0 && !is_sound(s.g, tables, log)
}

// Serves whole lines of the text from a position on, while a longest reply fits in the buffer.
pub fn serve_lent(
    text: &[u8],
    at: usize,
    run: &mut [u32],
    tables: &mut [u32],
    log: &mut [u8],
    out: &mut [u32],
    replies: &mut [u8],
) -> Result<Extent, Refusal>
    ensures { Hosts text.now at
        (lent_by run.old tables.old log.old out.old replies.old) result
        (lent_by run.new tables.new log.new out.new replies.new) }
{
    let session = session_of(run);
    if is_outside(session) {
        return Err(Refusal::OutsideLimits);
    }
    if is_too_short(run, tables, log, out, replies) {
        return Err(Refusal::TooShort);
    }
    if is_unsound(session, tables, log) {
        return Err(Refusal::NotSound);
    }
    let served = serve_part(text, at, session, tables, log, out, replies);
    put_run(run, served.session);
    Ok(Extent {
        at: served.at,
        used: served.used,
    })
}
