// The calls that only look, as a type of their own: they need tables and log only to be read.
ghost use Rattle.std.specs.Prelude.{◌≡◌};
ghost use Rattle.std.proofs.Math.Option.{some};
ghost use Rattle.model.specs.Command.{command};
ghost use Rattle.tables.specs.Ready.{record_of};
ghost use Rattle.engine.specs.Looks.{look_call, only_looks, seen_call};

use model::Call;

// The calls that only look.
#[derive(Clone, Copy)]
pub enum Look {
    Read(u32, u32),
    FreeList,
    Estimate(u32),
}

// The number of the record that a look is on, 0 for none.
pub fn record_seen(c: Look) -> u32
    ensures { result ≡ record_of (command (look_call c)) }
{
    match c {
        Look::Read(n, _) => n,
        Look::FreeList => 0,
        Look::Estimate(n) => n,
    }
}

// The look that a call is: those that change something are none.
pub fn look_of(c: Call) -> Option<Look>
    ensures { seen_call result ≡ only_looks (some c) }
{
    match c {
        Call::Read(n, page) => Some(Look::Read(n, page)),
        Call::FreeList => Some(Look::FreeList),
        Call::Estimate(n) => Some(Look::Estimate(n)),
        _ => None,
    }
}
