// Reading an accepted table back.
#![tactic(auto)]

pub mod gather;
pub mod pairs;
