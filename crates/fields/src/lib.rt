// The price file as text: its lines, and the fields of a line.
#![tactic(auto)]

pub mod content;
pub mod field;
pub mod lines;
