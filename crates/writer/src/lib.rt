// The words of a table: the pairs of a list gathered in the first cells of the blocks of their codes, and each block of more codes than one placed there.
#![tactic(auto)]

mod grouping;
pub mod valid;
mod write;
