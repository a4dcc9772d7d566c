// What every crate shares: the answers and their numbers, the limits, numbers and lists of them.
#![tactic(auto)]

pub mod answers;
pub mod limits;
pub mod numbers;
