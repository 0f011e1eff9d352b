// The calls on pages: W, E, R.
#![tactic(auto)]

pub mod erase;
pub mod kill;
pub mod kind;
pub mod place;
pub mod read;
pub mod words;
pub mod write;
