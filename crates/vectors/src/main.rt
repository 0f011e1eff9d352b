// Runs each script that its arguments name: the name on a line, then the script's replies.
#![tactic(auto)]

ghost use Rattle.std.specs.Prelude.{◌≤◌, length, IfOk};

use geometry::Geometry;
use serving::serve_part;
use session::start;
use std::env;
use std::fs::File;
use std::io::{self, Read, Write};

// The longest script that is read, in bytes.
const MOST: usize = 65536;

// A reply for each line of a text.
fn serve(rt: &HostRuntime, text: &[u8]) -> io::Result<()> {
    let mut t = [0u32; Geometry::MOST_TABLES];
    let mut log = [0u8; Geometry::MOST_LOG];
    let mut out = [0u32; Geometry::MOST_OUT];
    let mut replies = [0u8; 65536];
    let mut session = start();
    let mut at: usize = 0;
    let mut output = io::writer(rt);
    // Kept: how far a part goes is known only after it, which no range tells.
    while at < text.len() {
        let served = serve_part(text, at, session, &mut t, &mut log, &mut out, &mut replies);
        let used = served.used;
        output.write_all(&replies[..used])?;
        session = served.session;
        at = served.at;
    }
    Ok(())
}

// Reads until the input ends or `space` is full. Returns how many bytes it read.
fn read_full(file: &mut File, space: &mut [u8]) -> io::Result<usize>
    ensures { IfOk result (λ n. n ≤ length space.new) }
{
    let mut n: usize = 0;
    // Kept: `read_exact` fails at the end of the input, and `read_to_end` needs a `Vec` and goes on where a signal interrupts it.
    while n < space.len() {
        let more = file.read(&mut space[n..])?;
        if more == 0 {
            break;
        }
        n += more;
    }
    Ok(n)
}

// A script that cannot be read is said so, and the next one is run.
fn run_script(rt: &HostRuntime, path: &str) -> io::Result<()> {
    println!(rt; "{path}")?;
    let mut file = match File::open(rt, path) {
        Ok(file) => file,
        Err(error) => return eprintln!(rt; "{path}: {error}"),
    };
    let mut text = [0u8; MOST];
    let length = read_full(&mut file, &mut text)?;
    serve(rt, &text[..length])
}

fn main(rt: HostRuntime) -> io::Result<()> {
    for path in env::args(&rt)?.skip(1) {
        run_script(&rt, path.as_str())?;
    }
    Ok(())
}
