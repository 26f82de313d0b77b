// Marks on a telecontrol line, the lines that give them, two records held for reading and two layers over any line.
#![tactic(auto)]

pub mod character;
pub mod character_record;
pub mod line;
pub mod mark;
pub mod mark_record;
pub mod refusal;
pub mod reversal;
pub mod sampling;
#[cfg(test)]
mod tests;
