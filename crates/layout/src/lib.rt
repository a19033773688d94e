// Numbers and names in lent bytes, in and out: the way from the definitions of rules to code, for every layout.
#![tactic(auto)]

pub mod heads;
pub mod names;
pub mod numbers;
pub mod strings;
