// Sentences on standard error.
use std::fmt::Display;
use std::io;

// What cannot be written on standard error is lost.
pub fn say(rt: &impl Eprint, sentence: impl Display + Drop) {
    let _ = eprintln!(rt; "sogvect: {sentence}");
}

// Says why a call on `stream` failed, in the system's words alone.
pub fn fail<R: Eprint + Alloc>(rt: &R, stream: &str, error: &io::Error) {
    match error.to_string(rt.alloc()) {
        Ok(text) => say(rt, format_args!("{stream}: {}", without_number(&text))),
        Err(_) => say(rt, format_args!("{stream}: {error}")),
    }
}

// What an error is printed as, without the number of it that follows the words.
fn without_number(text: &str) -> &str {
    match text.split_once(" (os error ") {
        Some((words, _)) => words,
        None => text,
    }
}
