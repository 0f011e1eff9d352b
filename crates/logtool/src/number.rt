// Numbers as arguments spell them: 1 to 7 decimal digits, no leading zero but 0 itself.
ghost use Rattle.std.specs.Prelude.{◌≡◌, ◌≤◌, length};
ghost use Rattle.logtool.specs.Spelled.{digits_of, number_of};

// The number of some digits.
fn digits(text: &[u8]) -> Option<usize>
    requires { length text.now ≤ 7 }
    ensures { result ≡ digits_of text.now 0 }
{
    let mut value = 0;
    for b in text {
        if !b.is_ascii_digit() {
            return None;
        }
        value = value * 10 + usize::from(*b - b'0');
    }
    Some(value)
}

// The number that a text spells.
pub fn read_number(text: &[u8]) -> Option<usize>
    ensures { result ≡ number_of text.now }
{
    if text.is_empty() || 7 < text.len() {
        return None;
    }
    if text[0] == b'0' && 1 < text.len() {
        return None;
    }
    digits(text)
}
