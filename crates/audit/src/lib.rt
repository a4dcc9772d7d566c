// The check of a table from anywhere.
#![tactic(auto)]

mod blocks;
pub mod check;
mod places;
mod ranges;
