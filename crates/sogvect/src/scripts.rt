// A script in memory, part by part, for a host that receives scripts from strangers.
ghost use Rattle.std.specs.Prelude.{◌≡◌};
ghost use Rattle.serving.specs.Host.{hosted_reply, lent_by};
ghost use Rattle.sogvect.specs.Coded.{code_of, number_after, Scripted};

use crate::DONE;
use answer::Refusal;
use serving::host::{Extent, serve_lent};

// The code of a part; the position after it goes to `at`, the number of bytes of its replies to `count`.
fn parted(h: Result<Extent, Refusal>, at: &mut usize, count: &mut usize) -> u32
    ensures code { result ≡ code_of (hosted_reply h) }
    ensures at { at.new ≡ number_after 0 (hosted_reply h) at.old }
    ensures count { count.new ≡ number_after 1 (hosted_reply h) count.old }
{
    match h {
        Ok(part) => {
            *at = part.at;
            *count = part.used;
            DONE
        }
        Err(refusal) => u32::from(refusal.number()),
    }
}

// Whole lines of the text from `at` on, while a longest reply fits in `replies`.
#[unsafe(no_mangle)]
pub extern "C" fn sogvect_script(
    text: &[u8],
    at: &mut usize,
    run: &mut [u32],
    tables: &mut [u32],
    log: &mut [u8],
    out: &mut [u32],
    replies: &mut [u8],
    count: &mut usize,
) -> u32
    ensures { Scripted text.now at.old count.old
        (lent_by run.old tables.old log.old out.old replies.old)
        result at.new count.new
        (lent_by run.new tables.new log.new out.new replies.new) }
{
    let from = *at;
    let h = serve_lent(text, from, run, tables, log, out, replies);
    parted(h, at, count)
}
