// Numbers written as text: plain decimal, and the columns of a price file that hold numbers.
#![tactic(auto)]

pub mod columns;
pub mod digits;
