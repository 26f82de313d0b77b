// What a frame format is: how it judges marks, what it writes, and the laws that both keep.
#![tactic(auto)]

pub mod fault;
pub mod format;
pub mod refusal;
