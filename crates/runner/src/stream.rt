// A standard stream, or what it was opened as once more.
use crate::sentence::{fail, say};
use std::fs::File;
use std::io;
use std::io::{ErrorKind, Read, Write};

// A stream that is set not to wait is replaced by the same file opened without that setting.
#[derive(Drop)]
pub enum Stream<S> {
    Given(S),
    Opened(File),
}

impl<S: Read> Read for Stream<S> {
    fn read(&mut self, buf: &mut [u8]) -> io::Result<usize> {
        match self {
            Stream::Given(given) => given.read(buf),
            Stream::Opened(file) => file.read(buf),
        }
    }
}

impl<S: Write> Write for Stream<S> {
    fn write(&mut self, buf: &[u8]) -> io::Result<usize> {
        match self {
            Stream::Given(given) => given.write(buf),
            Stream::Opened(file) => file.write(buf),
        }
    }

    fn flush(&mut self) -> io::Result<()> {
        match self {
            Stream::Given(given) => given.flush(),
            Stream::Opened(file) => file.flush(),
        }
    }
}

// Whether to go on after a call on a standard stream that failed; where not, it says why. A stream that is set not to wait, and cannot go on now, is
// opened once more without that setting.
pub fn after_failure<S: Drop, F: FnOnce() -> io::Result<File>>(
    rt: &(impl Eprint + Alloc),
    stream: &mut Stream<S>,
    error: &io::Error,
    name: &str,
    state: &str,
    again: F,
) -> bool
    requires { F.IsAlwaysCallable again }
{
    match error.kind() {
        ErrorKind::Interrupted => true,
        ErrorKind::WouldBlock => match again() {
            Ok(file) => {
                *stream = Stream::Opened(file);
                true
            }
            Err(_) => {
                say(
                    rt,
                    format_args!("{name} {state}, is set not to wait, and cannot be opened again"),
                );
                false
            }
        },
        _ => {
            fail(rt, name, error);
            false
        }
    }
}
