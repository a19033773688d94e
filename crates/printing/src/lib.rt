// What the calendar program prints for the bytes that it reads.
#![tactic(auto)]

pub mod decimal;
mod input;
pub mod output;
mod stretch_line;
