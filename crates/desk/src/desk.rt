// The desk: a format with its receiver, a mark buffer and a frame buffer.
ghost use Rattle.std.specs.Prelude.{◌≡◌, replicate, IfOk, None};
ghost use Rattle.desk.specs.Hearings.{AtHearing};
ghost use Rattle.desk.specs.Orders.{Obeyed};

use crate::answer::{DeskAnswer, Undone};
use crate::hearings::{Buffers, Call, Hearing};
use crate::order::DeskOrder;
use formats::format::ReadFormat;
use ft2::format::Ft2;
use ft12::format::Ft12;
use lines::line::Line;
use receiver::receiver::{FRAME_OCTETS, Receiver};
use std::alloc::{AllocError, Global};

// So many octets has the mark buffer at first.
const MARK_OCTETS: usize = 4096;

#[derive(Drop)]
pub struct Desk {
    // none before a format is chosen
    hearing: Option<Hearing>,
    buffers: Buffers,
}

// A buffer of so many octets FF.
fn buffer(heap: Global, count: usize) -> Result<Vec<u8>, AllocError>
    ensures { IfOk result (λ v. v.items ≡ replicate count 255) }
{
    vec![in heap; 0xFF; count]
}

impl Desk {
    // At first there is no format, and a frame buffer of the fewest octets.
    pub fn new(heap: Global) -> Result<Desk, AllocError>
        ensures { IfOk result (λ d. (d.hearing ≡ None) × (d.buffers.marks.items ≡ replicate 4096 255) × (d.buffers.frame.items ≡ replicate 255 255)) }
    {
        let marks = buffer(heap, MARK_OCTETS)?;
        let frame = buffer(heap, FRAME_OCTETS)?;
        Ok(Desk {
            hearing: None,
            buffers: Buffers { marks, frame },
        })
    }

    // What the mark buffer holds.
    pub fn marks(&self) -> &[u8]
        ensures { result.now ≡ self.now.buffers.marks.items }
    {
        self.buffers.marks.as_slice()
    }

    // What the frame buffer holds.
    pub fn frame(&self) -> &[u8]
        ensures { result.now ≡ self.now.buffers.frame.items }
    {
        self.buffers.frame.as_slice()
    }

    // Carries out an order; where that is not done nothing is changed.
    pub fn obey<L: Line>(
        &mut self,
        heap: Global,
        line: &mut L,
        order: DeskOrder,
    ) -> Result<DeskAnswer, Undone>
        ensures { Obeyed L.Line.pending order self.old self.new line.old line.new result }
    {
        match order {
            DeskOrder::Ft12(fixed_length) => {
                let format = Ft12::new(fixed_length)?;
                self.hearing = Some(Hearing::Ft12(Receiver::new(format)));
                Ok(DeskAnswer::Ft12 {
                    fixed_length,
                    gap: format.gap(),
                    distance: format.hamming_distance(),
                })
            }
            DeskOrder::Ft2(fixed_length, header_length) => {
                let format = Ft2::new(fixed_length, header_length)?;
                self.hearing = Some(Hearing::Ft2(Receiver::new(format)));
                Ok(DeskAnswer::Ft2 {
                    fixed_length,
                    header_length,
                    gap: format.gap(),
                    distance: format.hamming_distance(),
                })
            }
            DeskOrder::MarkBuffer(count) => {
                self.buffers.marks = buffer(heap, usize::from(count))?;
                Ok(DeskAnswer::MarkBuffer(count))
            }
            DeskOrder::FrameBuffer(count) => {
                self.buffers.frame = buffer(heap, usize::from(count))?;
                Ok(DeskAnswer::FrameBuffer(count))
            }
            DeskOrder::ShowMarks => Ok(DeskAnswer::Marks),
            DeskOrder::ShowFrame => Ok(DeskAnswer::Frame),
            DeskOrder::Call(call) => self.call(line, call),
        }
    }

    // A call at the format that is chosen.
    fn call<L: Line>(&mut self, line: &mut L, call: Call) -> Result<DeskAnswer, Undone>
        ensures { AtHearing L.Line.pending call self.old.hearing self.new.hearing line.old line.new self.old.buffers self.new.buffers result }
    {
        let hearing = self.hearing.as_mut().ok_or(Undone::NoFormat)?;
        hearing.carry_out(line, &mut self.buffers, call)
    }
}
