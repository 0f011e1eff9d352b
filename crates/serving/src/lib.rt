// A script served in parts: replies to whole lines of a text, into a lent buffer.
#![tactic(auto)]

pub mod host;

ghost use Rattle.std.specs.Prelude.{length};
ghost use Rattle.model.specs.Memory.{lent};
ghost use Rattle.session.specs.Step.{Kept};
ghost use Rattle.serving.specs.Part.{begun, served, Serves};

use script::reply::{by_number, put_reply, spelling_of};
use script::said::said_at;
use session::{Session, step};

// How far the text was read, how many bytes of replies stand in the buffer, and what the run has between two lines.
#[derive(Clone, Copy)]
pub struct Served {
    pub session: Session,
    pub at: usize,
    pub used: usize,
}

// The bytes that a longest reply takes.
pub const LONGEST: usize = 49180;

// Serves whole lines of a text from a position on, while a longest reply fits in the buffer; the replies stand at its start, one after another.
pub fn serve_part(
    text: &[u8],
    at: usize,
    session: Session,
    t: &mut [u32],
    log: &mut [u8],
    out: &mut [u32],
    replies: &mut [u8],
) -> Served
    requires { Kept session t.old log.old out.old }
    ensures { Serves (served text.now (length replies.old) (begun at session (lent t.old log.old out.old))) replies.old result
        (lent t.new log.new out.new) replies.new }
{
    let mut s = session;
    let mut used: usize = 0;
    let mut i = at;
    if replies.len() < LONGEST {
        return Served {
            session: s,
            at: i,
            used,
        };
    }
    let most = replies.len() - LONGEST;
    let mut hints = [0u8; 1024];
    // Kept: where a line ends is known only after it is read, which no range tells.
    while i < text.len() {
        if most < used {
            return Served {
                session: s,
                at: i,
                used,
            };
        }
        let said = said_at(text, i);
        let says = said.says;
        let end = said.end;
        let stepped = step(s, says, t, log, out, &mut hints, text, i);
        s = stepped.session;
        let answer = stepped.answer;
        let spelling = spelling_of(says);
        used = put_reply(replies, used, spelling, by_number(answer), out);
        i = end + 1;
    }
    Served {
        session: s,
        at: i,
        used,
    }
}
