// Pairs by rising code, and what a radix sort needs.
#![tactic(auto)]

pub mod by_code;
pub mod radix;
