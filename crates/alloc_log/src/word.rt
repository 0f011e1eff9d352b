// Log words: eight bytes, big-endian.
ghost use Rattle.std.specs.Prelude.{◌≡◌, ◌+◌, ◌≤◌, length};
ghost use Rattle.alloc_log.specs.Word.{word_at, word_bytes, write_at};

// Writes a word at the start of a part.
pub fn put_word(part: &mut [u8], word: u64)
    requires { 8 ≤ length part.old }
    ensures { part.new ≡ write_at part.old 0 (word_bytes word) }
{
    part[..8].copy_from_slice(&word.to_be_bytes());
}

// Writes a word into the unused part of a log, after its used bytes, and returns how many are used then.
pub fn append(log: &mut [u8], used: usize, word: u64) -> usize
    requires { used + 8 ≤ length log.old }
    ensures { (result ≡ used + 8) × (log.new ≡ write_at log.old used (word_bytes word)) }
{
    put_word(&mut log[used..], word);
    used + 8
}

// The word at a byte position.
pub fn get_word(log: &[u8], at: usize) -> u64
    requires { at + 8 ≤ length log.now }
    ensures { result ≡ word_at log.now at }
{
    u64::from_be_bytes(log[at..at + 8].try_into().unwrap())
}
