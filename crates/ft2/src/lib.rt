// FT2 of IEC 60870-5-1, read and written.
#![tactic(auto)]

pub mod format;
mod frame;
mod marks;
mod reader;
#[cfg(test)]
mod tests;
pub mod writer;
