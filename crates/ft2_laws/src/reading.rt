// How far a frame has been read.

// A block of user octets, by its part in the frame.
#[derive(Clone, Copy)]
pub enum Block {
    // of a fixed frame: how many user octets come after the block
    Fixed(u8),
    Header,
    Body,
}

// How far an octet has been read.
#[derive(Clone, Copy)]
pub enum Part {
    // none of its marks has come
    First,
    // how many marks come after the next one, and the octet so far, the latest bit lowest
    Later(u8, u8),
}
