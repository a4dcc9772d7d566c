// A list of pairs: whether it is valid, and otherwise which of 1 to 5 refuses it.
#![tactic(auto)]

pub mod list;
mod range;
