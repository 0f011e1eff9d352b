// Log words after the used part of the log, counted in the tables.
ghost use Rattle.std.specs.Prelude.{◌≡◌, ◌+◌, ◌*◌, ◌^◌, ◌<◌, ◌≤◌, length, get_or, set};
ghost use Rattle.alloc_log.specs.Word.{write_at, bytes_of};

use alloc_log::word::append;
use tables::cells::USED;
use tables::find::wide;

// Writes the words, one after another.
pub fn log_words(t: &mut [u32], log: &mut [u8], words: &[u64])
    requires { (9 < length t.old) × (get_or t.old 9 0 + length words.now < 2 ^ 32) ×
        (8 * (get_or t.old 9 0 + length words.now) ≤ length log.old) }
    ensures tables { t.new ≡ set t.old 9 (get_or t.old 9 0 + length words.now) }
    ensures log { log.new ≡ write_at log.old (8 * get_or t.old 9 0) (bytes_of words.now) }
{
    let used = wide(t[USED]);
    for (i, word) in words.iter().enumerate() {
        append(log, 8 * (used + i), *word);
    }
    t[USED] = (used + words.len()) as u32;
}
