// FT2 by its definitions: the types that its reading needs, what its frames are, and the proof of a format's laws for
// every setting.
#![tactic(auto)]

pub mod fault;
pub mod kind;
pub mod reading;
pub mod settings;
