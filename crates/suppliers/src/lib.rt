// A supplier's list as text (document 02, Change 1): read into lent arrays, and written.
#![tactic(auto)]

pub mod numbered;
pub mod read;
mod scan;
pub mod write;
