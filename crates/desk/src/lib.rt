// The desk: orders to write frames and to hear them, read from lines of text and carried out at a line of marks.
#![tactic(auto)]

pub mod answer;
pub mod desk;
pub mod hearings;
pub mod misread;
pub mod order;
pub mod reading;
pub mod report;
