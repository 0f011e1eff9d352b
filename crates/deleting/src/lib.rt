// D: a record leaves the store. Q: what that would queue.
#![tactic(auto)]

pub mod delete;
pub mod estimate;
pub mod last;
pub mod next;
pub mod sort;
