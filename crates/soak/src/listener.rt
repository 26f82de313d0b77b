// A receiver, and what it has heard.
use crate::plans::Sent;
use crate::tally::Tally;
use formats::fault::Fault;
use formats::format::ReadFormat;
use hearing::answer::Ending;
use lines::line::Line;
use lines::mark_record::MarkRecord;
use receiver::receiver::{FRAME_OCTETS, Receiver};

#[derive(Drop)]
pub struct Listener<F> {
    receiver: Receiver<F>,
    buffer: [u8; FRAME_OCTETS],
    pub tally: Tally,
}

impl<F: ReadFormat> Listener<F>
where
    F::Fault: Drop,
{
    pub fn new(format: F) -> Self {
        Listener {
            receiver: Receiver::new(format),
            buffer: [0; FRAME_OCTETS],
            tally: Tally::new(),
        }
    }

    // Listens to the end of a round. The frame is awaited as the last that comes.
    pub fn hear(&mut self, marks: &[u8], sent: &Sent) {
        let mut line = MarkRecord::new(marks);
        let mut came = false;
        // each listen but the last takes a mark
        for _ in 0..=marks.len() {
            let Ok(heard) = self.receiver.listen(&mut line, &mut self.buffer, u16::MAX) else {
                return;
            };
            self.tally.marks = self.tally.marks.wrapping_add(u64::from(heard.taken));
            self.tally.note(u64::from(heard.taken));
            match heard.ending {
                Ending::Frame { kind, .. } => came = self.note_frame(kind, sent),
                Ending::Fault(fault) => {
                    came = false;
                    self.tally.faults = self.tally.faults.wrapping_add(1);
                    self.tally.note(u64::from(fault.number()));
                    self.tally.note(u64::from(fault.place()));
                }
                Ending::Spent => {}
                Ending::Empty => break,
            }
        }
        if came {
            self.tally.awaited = self.tally.awaited.wrapping_add(1);
        }
    }

    // Notes the frame that is held, and releases it. Whether it is the one that was sent.
    fn note_frame(&mut self, kind: u8, sent: &Sent) -> bool {
        self.tally.frames = self.tally.frames.wrapping_add(1);
        self.tally.note(u64::from(kind));
        let Ok(user) = self.receiver.look(&self.buffer) else {
            return false;
        };
        for octet in user.as_slice() {
            self.tally.note(u64::from(*octet));
        }
        let same = kind == sent.kind && user.as_slice() == sent.octets.as_slice();
        let _ = self.receiver.release();
        same
    }
}
