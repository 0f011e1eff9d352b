// The kind of a write: data, a pivot or a leaf.
ghost use Rattle.std.specs.Prelude.{◌≡◌};
ghost use Rattle.paging.specs.Kind.{kind_number, Decodes};

use answer::Refusal;

// The search of the block starts this many arenas after the arena counter.
#[derive(Clone, Copy, Debug, PartialEq, Eq)]
pub enum Kind {
    Data = 0,
    Pivot = 1,
    Leaf = 2,
}

impl Kind {
    pub fn number(self) -> usize
        ensures { result ≡ kind_number self }
    {
        self as usize
    }
}

impl TryFrom<u32> for Kind {
    type Error = Refusal;

    ghost try_from_gives = { Decodes };

    fn try_from(number: u32) -> Result<Self, Refusal> {
        match number {
            0 => Ok(Kind::Data),
            1 => Ok(Kind::Pivot),
            2 => Ok(Kind::Leaf),
            _ => Err(Refusal::NoSuchKind),
        }
    }
}
