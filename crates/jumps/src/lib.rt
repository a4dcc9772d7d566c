// Multipliers that fail for a common reason, and are passed over together.
#![tactic(auto)]

pub mod runs;
mod starts;
