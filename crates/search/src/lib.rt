// The least k of a list, and the least q of a block.
#![tactic(auto)]

pub mod blocks;
pub mod cells;
