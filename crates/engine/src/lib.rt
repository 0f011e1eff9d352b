// The sixteen calls on tables that are known to be sound: thirteen of a letter and numbers, and the three of names. Internal: `store` is what users call.
#![tactic(auto)]

pub mod looks;
pub mod names;

ghost use Rattle.std.specs.Prelude.{◌≡◌};
ghost use Rattle.answer.specs.Reply.{reply_of};
ghost use Rattle.model.specs.Command.{command};
ghost use Rattle.tables.specs.Ready.{Ready, OutLong, LogLong, LinkOf, record_of};
ghost use Rattle.tables.specs.Outcome.{replied, tables_left, log_left, out_left};
ghost use Rattle.engine.specs.Looks.{look_call};

use answer::Answer;
use deleting::delete::delete;
use deleting::estimate::estimate;
use geometry::{Geometry, copied};
use lines::{begin, fork};
use logging::{barrier, compress_log, free_list};
use model::Call;
use paging::erase::erase;
use paging::read::read;
use paging::write::write;
use reclaiming::reclaim;
use retaining::{retain, seal};

// The number of the record that a call is on, 0 for a call that is on none.
pub fn record_of(c: Call) -> u32
    ensures { result ≡ record_of (command c) }
{
    match c {
        Call::Begin => 0,
        Call::Write(n, _, _) => n,
        Call::Erase(n, _) => n,
        Call::Seal(n) => n,
        Call::Fork(n) => n,
        Call::Delete(n) => n,
        Call::Read(n, _) => n,
        Call::Barrier => 0,
        Call::Compress => 0,
        Call::FreeList => 0,
        Call::Estimate(n) => n,
        Call::Retain(n, _) => n,
        Call::Reclaim(_) => 0,
    }
}

// One call, with the link of the record that it is on: whoever calls has found it. A call costs what it touches: no table is scanned that it does not
// change.
pub fn perform(
    g: Geometry,
    t: &mut [u32],
    log: &mut [u8],
    out: &mut [u32],
    c: Call,
    link: usize,
) -> Answer
    requires { Ready g t.old × LogLong g log.old × OutLong g out.old × LinkOf g t.old (record_of (command c)) link }
    ensures reply { reply_of result out.new ≡ replied g t.old (command c) }
    ensures tables { t.new ≡ tables_left g t.old (command c) }
    ensures log { log.new ≡ log_left g t.old log.old (command c) }
    ensures out { out.new ≡ out_left g t.old out.old (command c) }
{
    match c {
        Call::Begin => begin(g, t, out),
        Call::Write(n, page, kind) => write(g, t, log, out, n, link, page, kind),
        Call::Erase(n, page) => erase(g, t, log, out, n, link, page),
        Call::Seal(n) => seal(copied(g), t, out, n, link),
        Call::Fork(n) => fork(g, t, out, n, link),
        Call::Delete(n) => delete(copied(g), t, n, link),
        Call::Read(n, page) => read(g, t, out, n, link, page),
        Call::Barrier => barrier(g, t, log),
        Call::Compress => compress_log(g, t, log, out),
        Call::FreeList => free_list(g, t, out),
        Call::Estimate(n) => estimate(copied(g), t, out, n, link),
        Call::Retain(n, most) => retain(g, t, n, link, most),
        Call::Reclaim(k) => reclaim(g, t, log, out, k),
    }
}

// A look at tables that are lent to be read, with the link of the record that it is on.
pub fn look(g: Geometry, t: &[u32], out: &mut [u32], c: looks::Look, link: usize) -> Answer
    requires { Ready g t.now × OutLong g out.old × LinkOf g t.now (record_of (command (look_call c))) link }
    ensures reply { reply_of result out.new ≡ replied g t.now (command (look_call c)) }
    ensures out { out.new ≡ out_left g t.now out.old (command (look_call c)) }
{
    match c {
        looks::Look::Read(n, page) => read(g, t, out, n, link, page),
        looks::Look::FreeList => free_list(g, t, out),
        looks::Look::Estimate(n) => estimate(g, t, out, n, link),
    }
}
