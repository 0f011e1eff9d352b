// Numbers of a line: a single space, then 1 to 7 decimal digits, no leading zero but 0 itself.
ghost use Rattle.std.specs.Prelude.{◌≡◌, ◌≤◌, length, drop};
ghost use Rattle.script.specs.Parse.{digits_from, number_from};

// A first digit's value and up to six digits more, from a position on: the number, and the position after it.
fn digits_at(line: &[u8], from: usize, first: u32) -> (u32, usize)
    requires { (from ≤ length line.now) × (first ≤ 9) }
    ensures { result ≡ digits_from (drop from line.now) first 6 from }
{
    let most = line.len().min(from + 6);
    let mut value = first;
    for i in from..most {
        if !line[i].is_ascii_digit() {
            return (value, i);
        }
        value = value * 10 + u32::from(line[i] - b'0');
    }
    (value, most)
}

// The number after a space at a position, and the position after it.
pub fn number_at(line: &[u8], at: usize) -> Option<(u32, usize)>
    ensures { result ≡ number_from (drop at line.now) at }
{
    let space = *line.get(at)?;
    let first = *line.get(at + 1)?;
    if space != b' ' || !first.is_ascii_digit() {
        return None;
    }
    if first == b'0' {
        return Some((0, at + 2));
    }
    Some(digits_at(line, at + 2, u32::from(first - b'0')))
}
