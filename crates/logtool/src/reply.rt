// Replies on standard output: `+` and a result, or `-` and a refusal.
use crate::sentence::fail;
use answer::Refusal;
use std::io;

// Says why standard output could not be written, where it could not.
fn told(err: &impl Print, written: io::Result<()>) {
    if let Err(e) = written {
        fail(err, b"standard output", &e);
    }
}

fn put_number(rt: &impl Print, n: u64) -> io::Result<()> {
    rt.write_all(b" ")?;
    rt.print(n)
}

fn put_numbers(rt: &impl Print, numbers: &[u32]) -> io::Result<()> {
    rt.write_all(b"+")?;
    for number in numbers {
        put_number(rt, u64::from(*number))?;
    }
    rt.write_all(b"\n")
}

// A sign and a number.
fn put_signed(rt: &impl Print, sign: &[u8], n: u64) -> io::Result<()> {
    rt.write_all(sign)?;
    put_number(rt, n)?;
    rt.write_all(b"\n")
}

fn put_line(rt: &impl Print, text: &[u8]) -> io::Result<()> {
    rt.write_all(text)?;
    rt.write_all(b"\n")
}

// `+` and the numbers.
pub fn print_numbers(rt: &impl Print, err: &impl Print, numbers: &[u32]) {
    told(err, put_numbers(rt, numbers));
}

// `+` and a count.
pub fn print_count(rt: &impl Print, err: &impl Print, n: usize) {
    told(err, put_signed(rt, b"+", n as u64));
}

// A line as it stands.
pub fn print_line(rt: &impl Print, err: &impl Print, text: &[u8]) {
    told(err, put_line(rt, text));
}

// `-` and the number of a refusal.
pub fn print_refusal(rt: &impl Print, err: &impl Print, refusal: Refusal) {
    told(err, put_signed(rt, b"-", u64::from(refusal.number())));
}
