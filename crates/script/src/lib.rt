// Scripts: lines of a text, the calls they spell, and replies.
#![tactic(auto)]

pub mod number;
pub mod parse;
pub mod reader;
pub mod reply;
pub mod said;
