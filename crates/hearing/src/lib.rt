// What a receiver answers, and the rules by which it hears frames from a line.
#![tactic(auto)]

pub mod answer;
pub mod fault;
pub mod refusal;
