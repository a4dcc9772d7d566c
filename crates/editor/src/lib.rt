// Put in, take out.
#![tactic(auto)]

mod changes;
pub mod edit;
