// The words of a table, each of its tests and places by itself. Nothing here writes.
#![tactic(auto)]

pub mod primes;
pub mod words;
