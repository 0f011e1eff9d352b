// A script reader: a text, and how far it has been read.
ghost use Rattle.std.specs.Prelude.{◌≡◌, ◌≤◌, ◌==◌, length};
ghost use Rattle.std.specs.List.{position_or_len};
ghost use Rattle.script.specs.Lines.{line_at};

#[derive(Drop)]
pub struct Script<'a> {
    pub text: &'a [u8],
    pub at: usize,
}

// How many bytes stand before the first such byte, or before the end where there is none.
pub fn run_to(text: &[u8], mark: u8) -> usize
    ensures is { result ≡ position_or_len (λ b. b == mark) text.now }
    ensures bound { result ≤ length text.now }
{
    text.iter().position(|b| *b == mark).unwrap_or(text.len())
}

// The work: the start and the end of the line at a position of a text, or none where no byte is left.
pub fn line_at(text: &[u8], at: usize) -> Option<(usize, usize)>
    ensures { result ≡ line_at text.now at }
{
    if at < text.len() {
        let end = at + run_to(&text[at..], b'\n');
        return Some((at, end));
    }
    None
}

// A reader of a text from a position on.
pub fn open<'a>(text: &'a [u8], at: usize) -> Script<'a>
    ensures { (result.text ≡ text.entry) × (result.at ≡ at) }
{
    Script { text, at }
}

// The line at the reader's position.
pub fn next<'a>(s: Script<'a>) -> Option<(usize, usize)>
    ensures { result ≡ line_at s.entry.text.now s.entry.at }
{
    line_at(s.text, s.at)
}

// The same from plain parameters.
pub fn line_from(text: &[u8], at: usize) -> Option<(usize, usize)>
    ensures { result ≡ line_at text.now at }
{
    next(open(text, at))
}
