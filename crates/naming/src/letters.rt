// The letters of names: whether bytes are a name, whether numbers of the tables are these bytes, and how the bytes are stored.
ghost use Rattle.std.specs.Prelude.{◌≡◌, ◌+◌, ◌≤◌, length};
ghost use Rattle.std.proofs.lemmas.List.Edits.{sets};
ghost use Rattle.model.specs.Names.{valid_name, same_letters};

// Whether the bytes are a name: 1 to 32 letters a to z. Of more bytes none is looked at.
pub fn is_valid(name: &[u8]) -> bool
    ensures is { result ≡ valid_name name.now }
{
    // Kept: the check of a stranger's tables asks the same of numbers, which have no `is_ascii_lowercase`.
    (1..=32).contains(&name.len()) && name.iter().all(|b| b.is_ascii_lowercase())
}

// Whether the n numbers from `at` on are the bytes of the name: first the length, then letter by letter.
pub fn same_letters(t: &[u32], at: usize, n: usize, name: &[u8]) -> bool
    requires { at + length name.now ≤ length t.now }
    ensures { result ≡ same_letters t.now at n name.now }
{
    n == name.len()
        && t[at..at + n]
            .iter()
            .zip(name)
            .all(|(x, b)| *x == u32::from(*b))
}

// The bytes of the name are stored from `at` on, one a number.
pub fn put_letters(t: &mut [u32], at: usize, name: &[u8])
    requires { at + length name.now ≤ length t.old }
    ensures { t.new ≡ sets t.old at name.now }
{
    for (i, b) in name.iter().enumerate() {
        t[at + i] = u32::from(*b);
    }
}
