// The calls of names, on tables that are known to be sound.
ghost use Rattle.std.specs.Prelude.{◌≡◌, List, ℕ};
ghost use Rattle.answer.specs.Reply.{reply_of};
ghost use Rattle.model.specs.Command.{command_on};
ghost use Rattle.tables.specs.Ready.{Ready, OutLong, LinkOf, record_of};
ghost use Rattle.tables.specs.Outcome.{replied, tables_left, out_left};

use answer::Answer;
use geometry::Geometry;
use model::Naming;
use naming::{attach, detach, resolve};

// The number of the record that a call of a name is on, whatever the name; 0 for a call that is on none.
pub fn record_named(c: Naming) -> u32
    ensures { (l : List ℕ) → result ≡ record_of (command_on c l) }
{
    match c {
        Naming::Attach(n) => n,
        Naming::Detach => 0,
        Naming::Resolve => 0,
    }
}

// One call of a name, with the link of the record that it is on. It writes no log word.
pub fn name(
    g: Geometry,
    t: &mut [u32],
    out: &mut [u32],
    c: Naming,
    bytes: &[u8],
    link: usize,
) -> Answer
    requires { Ready g t.old × OutLong g out.old × LinkOf g t.old (record_of (command_on c bytes.now)) link }
    ensures reply { reply_of result out.new ≡ replied g t.old (command_on c bytes.now) }
    ensures tables { t.new ≡ tables_left g t.old (command_on c bytes.now) }
    ensures out { out.new ≡ out_left g t.old out.old (command_on c bytes.now) }
{
    match c {
        Naming::Attach(n) => attach(g, t, bytes, n, link),
        Naming::Detach => detach(g, t, bytes),
        Naming::Resolve => resolve(g, t, out, bytes),
    }
}
