// What a receiver promises, for every format and every line.
ghost use Rattle.std.specs.Prelude.{◌≡◌};
ghost use Rattle.receiver.specs.Places.{model_of};
ghost use Rattle.receiver.specs.Promise.{ReceiverPromise};

use crate::receiver::Receiver;
use formats::format::ReadFormat;
use lines::line::Line;

// A receiver is never deaf: whatever was called before, it hands over the frame behind a quiet gap at the frame's last mark.
// And it is never deceived: no frame is handed over that has fewer marks altered than the distance, which is answered.
pub fn never_deaf_and_never_deceived<F: ReadFormat, L: Line>(
    receiver: &Receiver<F>,
    _line: &L,
) -> u8
    ensures promise { ReceiverPromise F.ReadFormat F.Fault.Fault L.Line.pending }
    ensures distance { result ≡ (model_of F.ReadFormat.model receiver.now).distance }
{
    receiver.format().hamming_distance()
}
