// The frame format FT1.2 of IEC 60870-5-1: a reader that works mark by mark, and a writer.
#![tactic(auto)]

mod characters;
pub mod format;
mod frames;
mod places;
pub mod settings;
#[cfg(test)]
mod tests;
pub mod worked;
