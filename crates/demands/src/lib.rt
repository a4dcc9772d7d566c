// The theorems of the demands. No code.
#![tactic(auto)]
