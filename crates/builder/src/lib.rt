// Building a table from a list.
#![tactic(auto)]

pub mod build;
