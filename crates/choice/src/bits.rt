// The bits of a word that are 1, the lowest first.
ghost use Rattle.std.specs.Prelude.{◌≡◌};
ghost use Rattle.std.specs.Iterator.{at_most};
ghost use Rattle.choice.specs.Bits.{Next};

// Those of `word`. Each step takes the lowest off.
#[derive(Drop)]
pub struct Bits {
    pub word: u32,
}

impl Bits {
    pub fn of(word: u32) -> Bits
        ensures { result ≡ record { word = word } }
    {
        Bits { word }
    }
}

impl Iterator for Bits {
    type Item = usize;

    ghost next_gives = { Next };

    ghost remaining = { λ s. at_most s.word };

    fn next(&mut self) -> Option<usize> {
        if self.word == 0 {
            return None;
        }
        let lowest = self.word.trailing_zeros();
        self.word &= self.word - 1;
        Some(lowest as usize)
    }
}
