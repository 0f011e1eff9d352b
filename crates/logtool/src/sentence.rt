// Sentences on standard error. One that cannot be written is lost.
ghost use Rattle.std.specs.Prelude.{◌≤◌, length};

use crate::args::PATH;
use answer::Refusal;
use std::io;
use std::io::Write;
use std::rt::Env;

// More bytes than an error's text has.
const TEXT: usize = 320;

fn put(err: &impl Print, text: &[u8]) {
    let _ = err.write_all(text);
}

pub fn usage(err: &impl Print) {
    put(err, b"usage: logtool held ARENAS BLOCKS FILE\n");
    put(err, b"       logtool compress ARENAS BLOCKS FILE NEW\n");
    put(err, b"       logtool compare ARENAS BLOCKS FILE OTHER\n");
    put(
        err,
        b"ARENAS, and BLOCKS in each, are decimal numbers of 1 to 7 digits with no leading zero.\n",
    );
}

// What a thing is.
pub fn say(err: &impl Print, what: &[u8], is: &[u8]) {
    put(err, b"logtool: ");
    put(err, what);
    put(err, b": ");
    put(err, is);
    put(err, b"\n");
}

// Puts an error's text at the start of `text`; returns its length.
fn spell(error: &io::Error, text: &mut [u8; TEXT]) -> usize
    ensures { result ≤ TEXT }
{
    let mut rest: &mut [u8] = text;
    let _ = write!(rest, "{error}");
    TEXT.saturating_sub(rest.len())
}

// How many bytes of an error's text stand before its number, which no sentence has.
fn words_length(text: &[u8]) -> usize
    ensures { result ≤ length text.now }
{
    (0..text.len())
        .find(|i| text[*i..].starts_with(b" (os error "))
        .unwrap_or(text.len())
}

// Why what was tried with a thing failed.
pub fn fail(err: &impl Print, what: &[u8], error: &io::Error) {
    let mut text = [0u8; TEXT];
    let n = spell(error, &mut text);
    let k = words_length(&text[..n]);
    say(err, what, &text[..k]);
}

// The reason of a refusal: the geometry, or the bytes of the file that argument i names.
pub fn refused(rt: &impl Env, err: &impl Print, refusal: Refusal, i: usize) {
    if refusal == Refusal::OutsideLimits {
        put(
            err,
            b"logtool: arenas 1 to 16, blocks 1 to 1024, at most 2048 in all\n",
        );
        return;
    }
    let mut path = [0u8; PATH];
    match rt.arg(i, &mut path) {
        Ok(n) => say(err, &path[..n], b"no log of this geometry"),
        Err(_) => say(err, b"", b"no log of this geometry"),
    }
}
