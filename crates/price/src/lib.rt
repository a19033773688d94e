// The itemised price of one article.
#![tactic(auto)]

pub mod answer;
pub mod answered;
pub mod call;
pub mod quoted;
