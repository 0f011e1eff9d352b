#![tactic(auto)]

// Runs a script: reads at most 65,536 bytes of it from standard input, writes a reply for each line as the lines come.
mod input;
mod output;
mod sentence;
mod stream;

ghost use Rattle.std.specs.Prelude.{◌≤◌, length};
ghost use Rattle.model.specs.Memory.{lent};
ghost use Rattle.serving.specs.Part.{begun};
ghost use Rattle.session.specs.Step.{Kept};
ghost use Rattle.runner.specs.Turn.{Answers};

use geometry::Geometry;
use input::{MOST, is_whole, part_end, read_more};
use output::write_replies;
use serving::serve_part;
use session::{Session, start};
use std::fs::File;
use std::io::Stdout;
use std::rt::Files;
use stream::Stream;

// How far a text is answered, what the run has then, and whether the last replies could not be written.
// Kept: no `Option`, since the promise of `answer` says where the run stands after a failed write too.
#[derive(Clone, Copy)]
struct Answered {
    session: Session,
    at: usize,
    failed: bool,
}

// Answers the lines of a text from `at` on, part after part.
fn answer<R: Files<File = File> + Eprint + Alloc>(
    rt: &R,
    output: &mut Stream<Stdout>,
    text: &[u8],
    at: usize,
    session: Session,
    t: &mut [u32],
    log: &mut [u8],
    out: &mut [u32],
    replies: &mut [u8],
) -> Answered
    requires kept { Kept session t.old log.old out.old }
    requires in_bounds { 65536 ≤ length replies.old }
    ensures { Answers text.now replies.old
        (begun at session (lent t.old log.old out.old)) result
        (lent t.new log.new out.new) replies.new }
{
    let mut kept = session;
    let mut failed = false;
    let mut done = at;
    // Kept: how far a part goes is known only after it, which no range tells.
    while done < text.len() {
        let served = serve_part(text, done, kept, t, log, out, replies);
        let used = served.used;
        failed = !write_replies(rt, output, &replies[..used]);
        kept = served.session;
        if failed {
            break;
        }
        done = served.at;
    }
    Answered {
        session: kept,
        at: done,
        failed,
    }
}

// Lines are answered as they come; what is left without a line feed once the script is whole: at its end, or at 65,536 bytes. `answer` is called in one
// place alone, so that it is compiled into `main`, where it is known that the five arrays are apart.
fn main(rt: HostRuntime) {
    let mut t = [0u32; Geometry::MOST_TABLES];
    let mut log = [0u8; Geometry::MOST_LOG];
    let mut out = [0u32; Geometry::MOST_OUT];
    let mut replies = [0u8; 65536];
    let mut text = [0u8; MOST];
    let mut session = start();
    let mut from = Stream::Given(rt.stdin());
    let mut to = Stream::Given(rt.stdout());
    let mut n: usize = 0;
    let mut at: usize = 0;
    let mut whole = false;
    while !whole {
        let Some(more) = read_more(&rt, &mut from, &mut text, n) else {
            return;
        };
        let all = n + more;
        whole = is_whole(more, all);
        let end = part_end(&text[..all], n, whole);
        n = all;
        let answered = answer(
            &rt,
            &mut to,
            &text[..end],
            at,
            session,
            &mut t,
            &mut log,
            &mut out,
            &mut replies,
        );
        session = answered.session;
        at = answered.at;
        if answered.failed {
            return;
        }
    }
}
