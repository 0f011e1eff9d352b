// Writing a log again, compressed.
ghost use Rattle.std.specs.Prelude.{◌≡◌, ◌+◌, ◌*◌, ◌<◌, ◌≤◌, length};
ghost use Rattle.alloc_log.specs.Word.{write_at, bytes_of};
ghost use Rattle.alloc_log.specs.Compress.{run_words, compressed};
ghost use Rattle.alloc_log.specs.Marks.{held_in};

use crate::word::append;

// Writes the entry of a run of held blocks: nothing of an empty run, one word of a single block, else two.
pub fn put_run(log: &mut [u8], used: usize, block: usize, count: usize) -> usize
    requires { (used + 8 * count ≤ length log.old) × (block ≤ 2048) × (count ≤ 2048) }
    ensures { (result ≡ used + 8 * length (run_words block count)) × (log.new ≡ write_at log.old used (bytes_of (run_words block count))) }
{
    if count == 0 {
        return used;
    }
    let address = (block * 16384) as u64;
    if count == 1 {
        return append(log, used, address + 1);
    }
    let next = append(log, used, address + 4);
    append(log, next, (count * 16384) as u64)
}

// Writes the compressed log of the marks at the start of a log, and returns how many bytes it has.
pub fn compress(log: &mut [u8], marks: &[u8; 2048], arenas: usize, per: usize) -> usize
    requires { (0 < per) × (arenas * per ≤ 2048) × (8 * (arenas * per) + 8 ≤ length log.old) }
    ensures { (result ≡ 8 * length (compressed arenas per (held_in marks.now)))
        × (log.new ≡ write_at log.old 0 (bytes_of (compressed arenas per (held_in marks.now)))) }
{
    let mut used = 0;
    for arena in 0..arenas {
        let start = arena * per;
        let edge = start + per;
        let mut run = 0;
        for b in start..edge {
            if marks[b] == 0 {
                used = put_run(log, used, b - run, run);
                run = 0;
            } else {
                run += 1;
            }
        }
        used = put_run(log, used, edge - run, run);
    }
    append(log, used, 3)
}
