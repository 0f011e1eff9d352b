// What a line says.
ghost use Rattle.std.specs.Prelude.{◌≡◌, ◌≤◌, [], ◌∷◌, length, IfSome};
ghost use Rattle.script.specs.Letters.{names, listed, call_of, naming_of};
ghost use Rattle.script.specs.Parse.{numbers_from, counted, opens, store, store_of, says_of, says_by, call_line, parsed};
ghost use Rattle.script.specs.Parse.{opens_name, named_of, named_by, name_line};

use crate::number::number_at;
use crate::reader::run_to;
use model::{Call, Naming};

// The six numbers of a store line.
#[derive(Clone, Copy)]
pub struct Six {
    pub arenas: u32,
    pub per: u32,
    pub pages: u32,
    pub records: u32,
    pub turn: u32,
    pub words: u32,
}

// Kept: an `Option` of these would be no plainer: there are three kinds of line, and `No` is the fourth answer of one question.
#[derive(Clone, Copy)]
pub enum Parsed {
    Store(Six),
    Asks(Call),
    // A call on a name, and the position in the line where the name ends; it begins at position 2.
    Named(Naming, u32),
    No,
}

// Whether the line begins with the five letters.
fn opens_store(line: &[u8]) -> bool
    ensures { result ≡ opens store line.now }
{
    line.starts_with(b"store")
}

// Reads the numbers from a position to the line's end, at most as many as asked; returns how many they are, none where the line has anything else.
fn numbers_at(line: &[u8], from: usize, most: usize, out: &mut [u32; 6]) -> Option<usize>
    requires { most ≤ 6 }
    ensures is { counted result out.new ≡ numbers_from line.now from most [] }
    ensures few { IfSome result (λ n. n ≤ most) }
{
    let mut at = from;
    for i in 0..most {
        if at == line.len() {
            return Some(i);
        }
        let (value, end) = number_at(line, at)?;
        out[i] = value;
        at = end;
    }
    if at != line.len() {
        return None;
    }
    Some(most)
}

// The six numbers of a store line, after its five letters.
fn store_line(line: &[u8]) -> Parsed
    ensures { result ≡ store_of (numbers_from line.now 5 6 []) }
{
    let mut n = [0u32; 6];
    if numbers_at(line, 5, 6, &mut n) != Some(6) {
        return Parsed::No;
    }
    Parsed::Store(Six {
        arenas: n[0],
        per: n[1],
        pages: n[2],
        records: n[3],
        turn: n[4],
        words: n[5],
    })
}

// The calls of a letter alone. Each call of the table has its arm in one of four functions, the one that its numbers choose.
pub fn bare_of(letter: u8) -> Parsed
    ensures { result ≡ says_of (call_of letter []) }
{
    match letter {
        b'B' => Parsed::Asks(Call::Begin),
        b'Y' => Parsed::Asks(Call::Barrier),
        b'C' => Parsed::Asks(Call::Compress),
        b'L' => Parsed::Asks(Call::FreeList),
        _ => Parsed::No,
    }
}

// The calls of a letter and one number.
pub fn one_of(letter: u8, x: u32) -> Parsed
    ensures { result ≡ says_of (call_of letter (x ∷ [])) }
{
    match letter {
        b'S' => Parsed::Asks(Call::Seal(x)),
        b'F' => Parsed::Asks(Call::Fork(x)),
        b'D' => Parsed::Asks(Call::Delete(x)),
        b'Q' => Parsed::Asks(Call::Estimate(x)),
        b'T' => Parsed::Asks(Call::Reclaim(x)),
        _ => Parsed::No,
    }
}

// The calls of a letter and two numbers.
pub fn two_of(letter: u8, x: u32, y: u32) -> Parsed
    ensures { result ≡ says_of (call_of letter (x ∷ y ∷ [])) }
{
    match letter {
        b'E' => Parsed::Asks(Call::Erase(x, y)),
        b'R' => Parsed::Asks(Call::Read(x, y)),
        b'K' => Parsed::Asks(Call::Retain(x, y)),
        _ => Parsed::No,
    }
}

// The calls of a letter and three numbers.
pub fn three_of(letter: u8, x: u32, y: u32, z: u32) -> Parsed
    ensures { result ≡ says_of (call_of letter (x ∷ y ∷ z ∷ [])) }
{
    match letter {
        b'W' => Parsed::Asks(Call::Write(x, y, z)),
        _ => Parsed::No,
    }
}

// What a letter and as many numbers say.
pub fn call_of(letter: u8, count: usize, x: u32, y: u32, z: u32) -> Parsed
    ensures { result ≡ says_by letter count x y z }
{
    match count {
        0 => bare_of(letter),
        1 => one_of(letter, x),
        2 => two_of(letter, x, y),
        3 => three_of(letter, x, y, z),
        _ => Parsed::No,
    }
}

// What a line of a letter and numbers says.
fn call_line(line: &[u8]) -> Parsed
    ensures { result ≡ call_line line.now }
{
    if line.is_empty() {
        return Parsed::No;
    }
    let mut n = [0u32; 6];
    let Some(count) = numbers_at(line, 1, 3, &mut n) else {
        return Parsed::No;
    };
    call_of(line[0], count, n[0], n[1], n[2])
}

// Whether a letter is that of a call with a name.
fn has_name(letter: u8) -> bool
    ensures { result ≡ listed names letter }
{
    matches!(letter, b'N' | b'U' | b'M')
}

// Whether the line begins with such a letter.
fn opens_name(line: &[u8]) -> bool
    ensures { result ≡ opens_name line.now }
{
    !line.is_empty() && has_name(line[0])
}

// The calls of a letter and a name. Each call of the table has its arm in one of two functions, the one that its numbers choose.
fn name_of(letter: u8, end: u32) -> Parsed
    ensures { result ≡ named_of (naming_of letter []) end }
{
    match letter {
        b'U' => Parsed::Named(Naming::Detach, end),
        b'M' => Parsed::Named(Naming::Resolve, end),
        _ => Parsed::No,
    }
}

// The calls of a letter, a name and one number.
fn name_and_one(letter: u8, end: u32, x: u32) -> Parsed
    ensures { result ≡ named_of (naming_of letter (x ∷ [])) end }
{
    match letter {
        b'N' => Parsed::Named(Naming::Attach(x), end),
        _ => Parsed::No,
    }
}

// What a letter, a name and as many numbers say.
fn naming_of(letter: u8, end: u32, count: usize, x: u32) -> Parsed
    ensures { result ≡ named_by letter end count x }
{
    match count {
        0 => name_of(letter, end),
        1 => name_and_one(letter, end, x),
        _ => Parsed::No,
    }
}

// What a line of a letter, a name and numbers says.
fn name_line(line: &[u8]) -> Parsed
    requires { length line.now ≤ 80 }
    ensures { result ≡ name_line line.now }
{
    if line.len() < 3 || line[1] != b' ' {
        return Parsed::No;
    }
    let end = 2 + run_to(&line[2..], b' ');
    if end == 2 {
        return Parsed::No;
    }
    let mut n = [0u32; 6];
    let Some(count) = numbers_at(line, end, 3, &mut n) else {
        return Parsed::No;
    };
    naming_of(line[0], end as u32, count, n[0])
}

// What a line says: the six numbers of a store, a call, a call on a name, or none of these.
pub fn parse(line: &[u8]) -> Parsed
    ensures { result ≡ parsed line.now }
{
    if 80 < line.len() {
        return Parsed::No;
    }
    if opens_store(line) {
        return store_line(line);
    }
    if opens_name(line) {
        return name_line(line);
    }
    call_line(line)
}
