// The words of a relation text: blanks, reserved words, signs and marks, names, strings, numbers.
#![tactic(auto)]

pub mod bytes;
mod lists;
mod runs;
pub mod tokens;
