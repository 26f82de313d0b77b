// One receiver for every format and every line.
#![tactic(auto)]

pub mod octets;
pub mod promise;
pub mod receiver;
mod stage;
