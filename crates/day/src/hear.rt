// Listening to a capture until it is empty.
ghost use Rattle.std.specs.Prelude.{◌≡◌, IfOk};
ghost use Rattle.hearing.specs.declared.answer.State.TheVariants.{Holding};
ghost use Rattle.receiver.specs.Places.{At, model_of, standing_of};
ghost use Rattle.day.specs.Hearing.{Handed, Told, begin, run};

use crate::decode::decode;
use crate::entry::{Entry, Lost, Site};
use formats::format::ReadFormat;
use hearing::answer::Ending;
use lines::line::Line;
use receiver::receiver::{FRAME_OCTETS, Receiver};
use std::alloc::{AllocError, Global};

// The frame that is held, decoded; then it is released.
fn held<F: ReadFormat>(
    site: Site,
    receiver: &mut Receiver<F>,
    kind: u8,
    buffer: &[u8; FRAME_OCTETS],
) -> Entry
    requires { (standing_of receiver.old).state ≡ Holding }
    ensures { Handed site (At F.ReadFormat.model F.ReadFormat.stands) (model_of F.ReadFormat.model) receiver.old receiver.new buffer.now kind result }
{
    let user = receiver.look(buffer).unwrap();
    let entry = decode(site, kind, user.as_slice());
    receiver.release().unwrap();
    entry
}

// Listens with a new receiver until the line is empty. There is an entry for each frame, sound or damaged, in their order.
pub fn hear<F: ReadFormat + Drop, L: Line>(
    heap: Global,
    site: Site,
    format: F,
    line: &mut L,
) -> Result<Vec<Entry>, AllocError>
where
    F::Fault: Copy,
    ensures { IfOk result (λ v. Told site (run (F.ReadFormat.model format) begin (L.Line.pending line.old)) v.items) }
{
    let mut receiver = Receiver::new(format);
    let mut buffer = [0; FRAME_OCTETS];
    let mut entries = Vec::new(heap);
    loop {
        let heard = receiver.listen(line, &mut buffer, u16::MAX).unwrap();
        let entry = match heard.ending {
            Ending::Empty => return Ok(entries),
            Ending::Spent => continue,
            Ending::Fault(fault) => Err(Lost::Damaged(fault.into())),
            Ending::Frame { kind, .. } => held(site, &mut receiver, kind, &buffer),
        };
        entries.push(entry)?;
    }
}
