// What a day's captures of the line and of the lab come to.
#![tactic(auto)]

pub mod batches;
pub mod decode;
pub mod entry;
pub mod hear;
pub mod layers;
pub mod text;
