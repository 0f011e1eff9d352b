// The store: what users call. Any six numbers, any memory, any arguments; nothing is trusted.
#![tactic(auto)]

mod admit;
pub mod call;
pub mod look;
pub mod make;
pub mod names;
