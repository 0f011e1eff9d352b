// What the benchmarks call: a script served into a lent buffer by the function that the runner runs. No other call stands beside it: a second caller of
// the engine would change what the compiler does inline. As in the runner, all memory of the store is local, and nobody reads the log: the compiler
// leaves out the writing of its bytes.
#![tactic(auto)]

ghost use Rattle.std.specs.Prelude.{◌≡◌, length};
ghost use Rattle.alloc_log.specs.Word.{write_at};
ghost use Rattle.measure.specs.Measured.{measured};

use geometry::Geometry;
use serving::serve_part;
use session::start;

// The replies to the lines of a text, in the lent buffer; stops once a longest reply no longer fits. Returns how many bytes of replies there are.
#[unsafe(no_mangle)]
pub extern "C" fn measure_script(text: &[u8], replies: &mut [u8]) -> usize
    ensures count { result ≡ length (measured text.now (length replies.old)).replies }
    ensures replies { replies.new ≡ write_at replies.old 0 (measured text.now (length replies.old)).replies }
{
    let mut t = [0u32; Geometry::MOST_TABLES];
    let mut log = [0u8; Geometry::MOST_LOG];
    let mut out = [0u32; Geometry::MOST_OUT];
    let session = start();
    let served = serve_part(text, 0, session, &mut t, &mut log, &mut out, replies);
    served.used
}
