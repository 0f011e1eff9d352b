// A table of marks, one for each block: 1 is held, 0 is free.
ghost use Rattle.std.specs.Prelude.{◌≡◌, ◌+◌, ◌-◌, ◌≤◌, Bool, length, replicate};
ghost use Rattle.std.proofs.lemmas.List.Edits.{sets};
ghost use Rattle.alloc_log.specs.Marks.{all_from, mark_run, Change};

// Whether each mark from `from` up to, not including, `to` is x. It looks at all of them, several in one instruction.
pub fn all_are(marks: &[u8; 2048], from: usize, to: usize, x: u8) -> bool
    requires { (from ≤ to) × (to ≤ 2048) }
    ensures { result ≡ all_from x marks.now from (to - from) }
{
    marks[from..to]
        .iter()
        .fold(0, |other, mark| other | (mark ^ x))
        == 0
}

// Sets each mark from `from` up to, not including, `to` to x.
pub fn fill(marks: &mut [u8; 2048], from: usize, to: usize, x: u8)
    requires { (from ≤ to) × (to ≤ 2048) }
    ensures { marks.new ≡ sets marks.old from (replicate (to - from) x) }
{
    marks[from..to].fill(x);
}

// Allocates or frees `count` blocks from `block` on, where each is in the other state; else changes nothing.
pub fn mark_run(marks: &mut [u8; 2048], block: usize, count: usize, held: bool) -> bool
    requires { block + count ≤ 2048 }
    ensures { ◌≡◌ {A = Change} (result, marks.new) (mark_run marks.old block count held) }
{
    let to = block + count;
    let apart = all_are(marks, block, to, u8::from(!held));
    if apart {
        fill(marks, block, to, u8::from(held));
    }
    apart
}
