// The arguments: a command, arenas and blocks per arena, files.
use crate::number::read_number;
use geometry::{Geometry, Numbers};
use std::env::FillError;
use std::rt::Env;

// Which arguments name files.
pub const FILE: usize = 4;

pub const OTHER: usize = 5;

// The bytes of a path that the system takes, with the one that ends it.
pub const PATH: usize = 4096;

#[derive(Clone, Copy)]
pub enum Command {
    Held,
    Compress,
    Compare,
}

#[derive(Clone, Copy)]
pub struct Asked {
    pub command: Command,
    pub numbers: Numbers,
}

// A log depends on arenas and blocks per arena alone. The other numbers of a geometry are any inside their limits;
// the log words are the most, which are enough for every number of blocks.
fn numbers_of(arenas: usize, per: usize) -> Numbers {
    Numbers::of(
        arenas,
        per,
        Geometry::MIN_PAGES,
        Geometry::MIN_RECORDS,
        Geometry::MIN_TURN,
        Geometry::MAX_WORDS,
    )
}

// The command of a name and a number of arguments, the program's own name among them.
fn command_of(name: &[u8], count: usize) -> Option<Command> {
    match (name, count) {
        (b"held", 5) => Some(Command::Held),
        (b"compress", 6) => Some(Command::Compress),
        (b"compare", 6) => Some(Command::Compare),
        _ => None,
    }
}

// An argument that is missing or longer than the buffer reads as no number.
fn number_at(rt: &impl Env, i: usize) -> Option<usize> {
    let mut text = [0u8; 16];
    let n = rt.arg(i, &mut text).ok()?;
    read_number(&text[..n])
}

fn is_given(rt: &impl Env, i: usize) -> bool {
    let mut text = [0u8; 16];
    !matches!(rt.arg(i, &mut text), Err(FillError::NotPresent))
}

// How many arguments there are, the program's own name among them; 7 stands for more than 6.
fn count(rt: &impl Env) -> usize {
    (0..7).find(|i| !is_given(rt, *i)).unwrap_or(7)
}

// A name that is missing or longer than the buffer is no command's.
fn read_command(rt: &impl Env) -> Option<Command> {
    let mut name = [0u8; 16];
    let n = rt.arg(1, &mut name).ok()?;
    command_of(&name[..n], count(rt))
}

// What the arguments ask for; none where there is no command, or one with too few, too many or misspelled arguments.
pub fn read_args(rt: &impl Env) -> Option<Asked> {
    let command = read_command(rt)?;
    let arenas = number_at(rt, 2)?;
    let per = number_at(rt, 3)?;
    Some(Asked {
        command,
        numbers: numbers_of(arenas, per),
    })
}
