// Relation texts, read to their end or to the first byte that may not come; and the names that they derive from properties.
#![tactic(auto)]

mod assignments;
mod conditions;
mod expected;
pub mod names;
mod reader;
mod simple;
mod starts;
pub mod told;
