// Files that arguments name: reading one whole, making a new one.
ghost use Rattle.std.specs.Prelude.{◌+◌, ◌≤◌, length, IfSome};

use crate::args::PATH;
use crate::sentence::{fail, say};
use std::env::FillError;
use std::fs::{File, OpenFile, OpenOptions};
use std::io::{Error, ErrorKind, Read, Write};
use std::rt::{Env, Files};
use std::{fs, io};

// The longest file that is read, in bytes: three times the longest log of a store. Two of them stand on the stack.
pub const MOST: usize = 196608;

// The system's numbers of two errors.
const EINVAL: i32 = 22;

const ENAMETOOLONG: i32 = 36;

// Why an argument cannot be had, as the system's error.
fn argument_error(error: FillError) -> Error {
    match error {
        FillError::NotPresent => Error::from_raw_os_error(EINVAL),
        FillError::TooLong => Error::from_raw_os_error(ENAMETOOLONG),
    }
}

// A path as text, which is what the calls of the library take.
fn text_of(path: &[u8]) -> io::Result<&str> {
    str::from_utf8(path).map_err(|_| Error::new(
        ErrorKind::InvalidFilename,
        "the name is not UTF-8",
    ))
}

fn open_read<R: Files>(rt: &R, path: &[u8]) -> io::Result<R::File> {
    File::open(rt, text_of(path)?)
}

fn create<R: Files>(rt: &R, path: &[u8]) -> io::Result<R::File> {
    OpenOptions::new()
        .write(true)
        .create_new(true)
        .open(rt, text_of(path)?)
}

fn rename(rt: &impl Files, from: &[u8], to: &[u8]) -> io::Result<()> {
    fs::rename(rt, text_of(from)?, text_of(to)?)
}

fn unlink(rt: &impl Files, path: &[u8]) {
    if let Ok(text) = text_of(path) {
        let _ = fs::remove_file(rt, text);
    }
}

// Reads until `space` is full, the input ends or a read fails; returns how many bytes it put at the start of `space`.
fn read_full(file: &mut impl Read, space: &mut [u8]) -> usize
    ensures { result ≤ length space.new }
{
    let mut done = 0;
    // Kept: `read_exact` does not say how much was read before it failed.
    while done < space.len() {
        match file.read(&mut space[done..]) {
            Ok(n) if n > 0 => done += n,
            _ => break,
        }
    }
    done
}

// Whether the input ends after the bytes that were read; a sentence where it does not.
fn is_whole(
    file: &mut impl Read,
    err: &impl Print,
    path: &[u8],
    length: usize,
    most: usize,
) -> bool {
    let mut next = [0u8; 1];
    match file.read(&mut next) {
        Ok(0) => true,
        Ok(_) => {
            if length < most {
                say(err, path, b"the read was interrupted");
            } else {
                say(err, path, b"longer than 196608 bytes");
            }
            false
        }
        Err(e) => {
            fail(err, path, &e);
            false
        }
    }
}

// Reads the file of a path into `space`; how many bytes it has, or none where it could not be read whole.
fn read_path(rt: &impl Files, err: &impl Print, path: &[u8], space: &mut [u8]) -> Option<usize>
    ensures { IfSome result (λ n. n ≤ length space.new) }
{
    match open_read(rt, path) {
        Ok(mut file) => {
            let n = read_full(&mut file, space);
            is_whole(&mut file, err, path, n, space.len()).then_some(n)
        }
        Err(e) => {
            fail(err, path, &e);
            None
        }
    }
}

// Reads the file that argument i names into `space`; how many bytes it has, or none where it could not be read whole.
pub fn read_file(
    rt: &(impl Env + Files),
    err: &impl Print,
    i: usize,
    space: &mut [u8; MOST],
) -> Option<usize>
    ensures { IfSome result (λ n. n ≤ length space.new) }
{
    let mut path = [0u8; PATH];
    match rt.arg(i, &mut path) {
        Ok(n) => read_path(rt, err, &path[..n], space),
        Err(e) => {
            fail(err, b"a file's name", &argument_error(e));
            None
        }
    }
}

// Writes all bytes and waits until they have reached the device.
fn write_through(file: &mut (impl Write + OpenFile), bytes: &[u8]) -> io::Result<()> {
    file.write_all(bytes)?;
    file.sync_all()
}

// Makes the file, or says why it cannot. A part file that is there already is another run's, or what is left of one.
fn open_part<R: Files>(rt: &R, err: &impl Print, part: &[u8]) -> Option<R::File> {
    match create(rt, part) {
        Ok(file) => Some(file),
        Err(e) => {
            if e.kind() == ErrorKind::AlreadyExists {
                say(
                    err,
                    part,
                    b"another run is writing it, or left it when it was ended; if none is, remove it",
                );
            } else {
                fail(err, part, &e);
            }
            None
        }
    }
}

// Makes a file with these bytes; leaves none behind where it cannot.
fn write_new(rt: &impl Files, err: &impl Print, part: &[u8], bytes: &[u8]) -> bool {
    let Some(mut file) = open_part(rt, err, part) else {
        return false;
    };
    match write_through(&mut file, bytes) {
        Ok(()) => true,
        Err(e) => {
            fail(err, part, &e);
            unlink(rt, part);
            false
        }
    }
}

// Whether no file has this name, not even a link that leads nowhere: the look follows no link.
fn is_free(rt: &impl Files, path: &[u8]) -> bool {
    let Ok(text) = text_of(path) else {
        return false;
    };
    match fs::symlink_metadata(rt, text) {
        Ok(_) => false,
        Err(e) => e.kind() == ErrorKind::NotFound,
    }
}

// How many bytes of a path name its folder, the slash at the end among them; 0 where it names none.
fn folder_length(path: &[u8]) -> usize
    ensures { result ≤ length path.now }
{
    path.iter().rposition(|b| *b == b'/').map_or(0, |i| i + 1)
}

fn sync_names(rt: &impl Files, folder: &[u8]) -> io::Result<()> {
    let file = open_read(rt, folder)?;
    file.sync_all()
}

// Waits until the names in a folder have reached the device.
fn sync(rt: &impl Files, err: &impl Print, folder: &[u8]) -> bool {
    match sync_names(rt, folder) {
        Ok(()) => true,
        Err(e) => {
            fail(err, folder, &e);
            false
        }
    }
}

fn sync_folder_of(rt: &impl Files, err: &impl Print, path: &[u8]) -> bool {
    let n = folder_length(path);
    if n == 0 {
        return sync(rt, err, b".");
    }
    sync(rt, err, &path[..n])
}

// Gives a finished file its name; removes it where it cannot.
fn give_name(rt: &impl Files, err: &impl Print, part: &[u8], path: &[u8]) -> bool {
    if let Err(e) = rename(rt, part, path) {
        fail(err, path, &e);
        unlink(rt, part);
        return false;
    }
    if sync_folder_of(rt, err, path) {
        return true;
    }
    say(
        err,
        path,
        b"written, but a failure of power may take it away again",
    );
    false
}

// Puts `.part` after the first n bytes; returns how many bytes there are then.
fn add_part(path: &mut [u8], n: usize) -> usize
    requires { n + 5 ≤ length path.old }
    ensures { result ≤ length path.new }
{
    path[n..n + 5].copy_from_slice(b".part");
    n + 5
}

// Makes the file of a path, with these bytes. They go to NAME.part first, and reach the device before that file gets the
// name: whenever the run is ended, the name has no file, or one with all bytes. The library has no call that gives a name
// only where it is free, so the look comes first. Two runs of this tool cannot meet there, since each makes NAME.part;
// a file that another program makes between the look and the renaming would be replaced.
fn write_path(rt: &impl Files, err: &impl Print, path: &[u8], part: &[u8], bytes: &[u8]) -> bool {
    if !write_new(rt, err, part, bytes) {
        return false;
    }
    if is_free(rt, path) {
        return give_name(rt, err, part, path);
    }
    say(err, path, b"there is a file of this name already");
    unlink(rt, part);
    false
}

// Makes the file that argument i names, with these bytes.
pub fn write_file(rt: &(impl Env + Files), err: &impl Print, i: usize, bytes: &[u8]) -> bool {
    let mut path = [0u8; PATH];
    match rt.arg(i, &mut path) {
        Ok(n) => {
            // A path has at most 4,095 bytes, five of them for `.part`.
            if 4090 < n {
                say(err, &path[..n], b"the name is too long");
                return false;
            }
            let mut part = path;
            let m = add_part(&mut part, n);
            write_path(rt, err, &path[..n], &part[..m], bytes)
        }
        Err(e) => {
            fail(err, b"a file's name", &argument_error(e));
            false
        }
    }
}
