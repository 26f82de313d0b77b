// Records with up to two layers over them, in any order, as one type that is a line.
#![tactic(auto)]

pub mod layer;
pub mod layered;
pub mod record;
pub mod stack;
