// The format that is chosen, with its receiver, and the calls to it.
ghost use Rattle.desk.specs.Calls.{CarriedOut};
ghost use Rattle.desk.specs.Hearings.{AtHearing};
ghost use Rattle.std.specs.Prelude.{Some};

use crate::answer::{DeskAnswer, Undone};
use formats::format::WriteFormat;
use ft2::format::Ft2;
use ft12::format::Ft12;
use hearing::answer::Heard;
use lines::line::Line;
use receiver::receiver::Receiver;

// an enum and no `dyn`, since the gate lets no function hand out a `dyn` value that it made
#[derive(Drop)]
pub enum Hearing {
    Ft12(Receiver<Ft12>),
    Ft2(Receiver<Ft2>),
}

// A mark buffer and a frame buffer.
#[derive(Drop)]
pub struct Buffers {
    pub(crate) marks: Vec<u8>,
    pub(crate) frame: Vec<u8>,
}

// A call to a format and its receiver.
#[derive(Drop)]
pub enum Call {
    // make a new receiver
    New,
    // put a frame of the kind of this number, which the format may lack, with these user octets into the mark buffer
    Write(u8, Vec<u8>),
    // put a quiet gap into the mark buffer
    Gap,
    // listen at the line with this budget
    Listen(u16),
    // look at the frame that is held
    Look,
    // release the frame that is held
    Release,
    // tell the state and the run
    State,
}

// A call, whatever the format.
fn carry_out<F: WriteFormat + Copy, L: Line>(
    receiver: &mut Receiver<F>,
    line: &mut L,
    buffers: &mut Buffers,
    call: Call,
) -> Result<DeskAnswer, Undone>
where
    F::Fault: Drop,
    ensures { CarriedOut F.ReadFormat.model F.ReadFormat.stands F.Fault.Fault.cause L.Line.pending call receiver.old receiver.new line.old line.new buffers.old buffers.new result }
{
    match call {
        Call::New => {
            *receiver = Receiver::new(*receiver.format());
            Ok(DeskAnswer::NewReceiver)
        }
        Call::Write(kind, octets) => {
            let marks = buffers.marks.as_mut_slice();
            let count = receiver.format().write(kind, octets.as_slice(), marks)?;
            Ok(DeskAnswer::Wrote(count))
        }
        Call::Gap => {
            let count = receiver.format().write_gap(buffers.marks.as_mut_slice())?;
            Ok(DeskAnswer::Wrote(count))
        }
        Call::Listen(budget) => {
            let heard = receiver.listen(line, buffers.frame.as_mut_slice(), budget)?;
            Ok(DeskAnswer::Heard(Heard {
                taken: heard.taken,
                ending: heard.ending.told(),
            }))
        }
        Call::Look => {
            let octets = receiver.look(buffers.frame.as_slice())?;
            Ok(DeskAnswer::Looked(octets.len()))
        }
        Call::Release => {
            receiver.release()?;
            Ok(DeskAnswer::Released)
        }
        Call::State => Ok(DeskAnswer::Stands(receiver.state())),
    }
}

impl Hearing {
    // A call at the format that is chosen.
    pub(crate) fn carry_out<L: Line>(
        &mut self,
        line: &mut L,
        buffers: &mut Buffers,
        call: Call,
    ) -> Result<DeskAnswer, Undone>
        ensures { AtHearing L.Line.pending call (Some self.old) (Some self.new) line.old line.new buffers.old buffers.new result }
    {
        match self {
            Hearing::Ft12(receiver) => carry_out(receiver, line, buffers, call),
            Hearing::Ft2(receiver) => carry_out(receiver, line, buffers, call),
        }
    }
}
