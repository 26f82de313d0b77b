// The receiver. Its format is held by value; the line and the frame buffer are handed in to the calls.
use crate::stage::Stage;

mod calls;

// The fewest octets of a frame buffer: as many as a frame can have.
pub const FRAME_OCTETS: usize = 255;

// Hears the frames of one format. The run is the number of marks of 1 that came last, counted up to the gap.
// Kept without an invariant that the format stands for the list so far: each type that holds a receiver would have to name
// the bound. The calls say it of each list for which the format stands.
#[derive(Drop)]
pub struct Receiver<F> {
    format: F,
    stage: Stage,
    run: u16,
}
