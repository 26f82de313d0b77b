// The receiver's promise put to use: over each kind of line, for FT1.2 and for FT2.
#![tactic(auto)]

pub mod each_line;
pub mod ft12_receivers;
pub mod ft2_receivers;
