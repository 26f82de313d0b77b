// The check octet of FT2 blocks (IEC 60870-5-1), taken bit by bit or for a whole block, and how many altered bits it shows.
#![tactic(auto)]

pub mod block;
pub mod distance;
pub mod division;
pub mod octet;
pub mod register;
