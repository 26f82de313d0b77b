// A viscosity reading: what the user octets of a frame mean, and how a bath result is keyed.
#![tactic(auto)]

pub mod keyed;
mod numbers;
pub mod reading;
pub mod refusal;
#[cfg(test)]
mod tests;
pub mod text;
