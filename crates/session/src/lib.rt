// A script's run on memory that the runner owns: a line in, an answer out. Soundness is kept, not checked again.
#![tactic(auto)]

ghost use Rattle.std.specs.Prelude.{◌≡◌, length};
ghost use Rattle.answer.specs.Reply.{reply_of};
ghost use Rattle.model.specs.Command.{command, command_on};
ghost use Rattle.model.specs.Memory.{lent};
ghost use Rattle.script.specs.Spoken.{makes, asks, spoken_at};
ghost use Rattle.script.specs.Said.{NameIn};
ghost use Rattle.geometry.specs.Limits.{asked};
ghost use Rattle.session.specs.Step.{no_store, geometry_in, step_reply, step_memory, step_session, step_hints, Kept, Uncalled, Few, Stepping};

use answer::{Answer, Refusal};
use engine::names::{name, record_named};
use engine::{perform, record_of};
use geometry::{Geometry, Numbers, copied};
use model::{Call, Naming};
use script::parse::{Parsed, Six};
use store::make::make;
use tables::find::{hint_slot, slot_by, wide};

// Whether a store was made, 1 or 0, and its geometry. A number and no bool: a bool would leave a gap, and a copy of the struct would read more bytes
// than were written at once.
// Kept: no Option, since the C interface needs the seven numbers: `sogvect_script` gives a run's numbers back as they came, also before a store is made.
#[derive(Clone, Copy)]
pub struct Session {
    pub made: usize,
    pub g: Geometry,
}

// What a line leaves of the session, and its answer.
#[derive(Clone, Copy)]
pub struct Stepped {
    pub session: Session,
    pub answer: Answer,
}

// Before the first line there is no store.
pub fn start() -> Session
    ensures { result ≡ no_store }
{
    Session {
        made: 0,
        g: Geometry::LEAST,
    }
}

// The refusal of a call before a store exists.
const NO_STORE: Refusal = Refusal::NotSound;

fn refuse(s: Session, refusal: Refusal) -> Stepped
    ensures { result ≡ record { session = s; answer = Err refusal } }
{
    Stepped {
        session: s,
        answer: Err(refusal),
    }
}

// The six numbers of a store line, as a making takes them.
fn widened(x: Six) -> Numbers
    ensures { asked result ≡ geometry_in x }
{
    Numbers::of(
        wide(x.arenas),
        wide(x.per),
        wide(x.pages),
        wide(x.records),
        wide(x.turn),
        wide(x.words),
    )
}

// A store line: an accepted one starts afresh, a refused one changes nothing.
fn store_line(s: Session, x: Six, t: &mut [u32], log: &[u8], out: &[u32]) -> Stepped
    requires { Kept s t.old log.now out.now }
    ensures { Stepping s (lent t.old log.now out.now) (makes x) result
        (lent t.new log.now out.now) }
{
    let numbers = widened(x);
    let Ok(g) = Geometry::new(numbers) else {
        return refuse(s, Refusal::OutsideLimits);
    };
    let answer = make(numbers, t, log, out);
    let Ok(n) = answer else {
        return Stepped { session: s, answer };
    };
    Stepped {
        session: Session { made: 1, g },
        answer: Ok(n),
    }
}

// A call: 4 before a store exists, else the engine acts at once. Where the call's record was found is noted: its next call looks there first.
fn call_line(
    s: Session,
    c: Call,
    t: &mut [u32],
    log: &mut [u8],
    out: &mut [u32],
    hints: &mut [u8; 1024],
) -> Stepped
    requires { Kept s t.old log.old out.old }
    ensures line { Stepping s (lent t.old log.old out.old) (asks (command c)) result
        (lent t.new log.new out.new) }
    ensures hints { hints.new ≡ step_hints s t.old (asks (command c)) hints.old }
{
    if s.made == 0 {
        return refuse(s, NO_STORE);
    }
    let g = s.g;
    let n = record_of(c);
    let link = slot_by(t, g, hints, n);
    hint_slot(hints, n, link);
    let answer = perform(g, t, log, out, c, link);
    Stepped { session: s, answer }
}

// A call of a name, in the same way: U and M are on no record.
fn name_line(
    s: Session,
    c: Naming,
    bytes: &[u8],
    t: &mut [u32],
    log: &[u8],
    out: &mut [u32],
    hints: &mut [u8; 1024],
) -> Stepped
    requires { Kept s t.old log.now out.old }
    ensures line { Stepping s (lent t.old log.now out.old) (asks (command_on c bytes.now)) result
        (lent t.new log.now out.new) }
    ensures hints { hints.new ≡ step_hints s t.old (asks (command_on c bytes.now)) hints.old }
{
    if s.made == 0 {
        return refuse(s, NO_STORE);
    }
    let g = s.g;
    let number = record_named(c);
    let link = slot_by(t, g, hints, number);
    hint_slot(hints, number, link);
    let answer = name(copied(g), t, out, c, bytes, link);
    Stepped { session: s, answer }
}

// A line that is no call of a letter and numbers. `step` tells it apart by one test: with an arm for each kind of line in one place the calls that scripts
// have most would take more instructions.
fn other_line(
    s: Session,
    said: Parsed,
    t: &mut [u32],
    log: &[u8],
    out: &mut [u32],
    hints: &mut [u8; 1024],
    text: &[u8],
    at: usize,
) -> Stepped
    requires { Kept s t.old log.now out.old × (NameIn text.now at said (length text.now) × Uncalled said) }
    ensures line { Stepping s (lent t.old log.now out.old) (spoken_at text.now at said) result
        (lent t.new log.now out.new) }
    ensures hints { hints.new ≡ step_hints s t.old (spoken_at text.now at said) hints.old }
{
    if let Parsed::Store(x) = said {
        return store_line(s, x, t, log, out);
    }
    let Parsed::Named(c, e) = said else {
        return refuse(s, Refusal::NoCall);
    };
    let from = at + 2;
    let end = at + wide(e);
    name_line(s, c, &text[from..end], t, log, out, hints)
}

// One line, by what it says; it begins at `at` in the text, where its name stands, if it has one. Of the hints, where records may stand, nothing is asked.
pub fn step(
    s: Session,
    said: Parsed,
    t: &mut [u32],
    log: &mut [u8],
    out: &mut [u32],
    hints: &mut [u8; 1024],
    text: &[u8],
    at: usize,
) -> Stepped
    requires { Kept s t.old log.old out.old × NameIn text.now at said (length text.now) }
    ensures reply { reply_of result.answer out.new ≡ step_reply s (lent t.old log.old out.old)
        (spoken_at text.now at said) }
    ensures session { result.session ≡ step_session s (lent t.old log.old out.old)
        (spoken_at text.now at said) }
    ensures tables { t.new ≡ (step_memory s (lent t.old log.old out.old)
        (spoken_at text.now at said)).tables }
    ensures log { log.new ≡ (step_memory s (lent t.old log.old out.old)
        (spoken_at text.now at said)).log }
    ensures out { out.new ≡ (step_memory s (lent t.old log.old out.old)
        (spoken_at text.now at said)).out }
    ensures kept { Kept result.session t.new log.new out.new }
    ensures few { Few result.answer }
    ensures hints { hints.new ≡ step_hints s t.old (spoken_at text.now at said) hints.old }
{
    let Parsed::Asks(c) = said else {
        return other_line(s, said, t, log, out, hints, text, at);
    };
    call_line(s, c, t, log, out, hints)
}
