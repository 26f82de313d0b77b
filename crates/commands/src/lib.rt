// The language of the console: commands read from lines of text, and what they do to a line of marks.
#![tactic(auto)]

pub mod answer;
pub mod command;
pub mod misread;
pub mod octet;
#[cfg(test)]
mod tests;
pub mod words;
pub mod work;
