// The orders that the desk carries out.

use crate::hearings::Call;

#[derive(Drop)]
pub enum DeskOrder {
    // choose FT1.2 with this fixed length
    Ft12(u16),
    // choose FT2 with this fixed length and this header length
    Ft2(u16, u16),
    // make a mark buffer of so many octets
    MarkBuffer(u16),
    // make a frame buffer of so many octets
    FrameBuffer(u16),
    ShowMarks,
    ShowFrame,
    // a call at the format that is chosen
    Call(Call),
}

// What the first word of an order names. Lines are read by it, since `word_of` then spares a proof for each word.
#[derive(Clone, Copy)]
pub enum Name {
    Receiver,
    Gap,
    ShowMarks,
    ShowFrame,
    Look,
    Release,
    State,
    Ft12,
    MarkBuffer,
    FrameBuffer,
    Listen,
    Ft2,
    Write,
}
