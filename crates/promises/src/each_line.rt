// The receiver's promise over each kind of line, for every format. Each function answers the format's distance: fewer
// altered marks are never taken for a frame.
ghost use Rattle.std.specs.Prelude.{◌≡◌, ◌++◌, map};
ghost use Rattle.lines.specs.Entries.{left_from};
ghost use Rattle.lines.specs.Layers.{exchanged, held, threes};
ghost use Rattle.lines.specs.Records.{mark_of};
ghost use Rattle.receiver.specs.Places.{model_of};
ghost use Rattle.receiver.specs.Promise.{ReceiverPromise};

use formats::format::ReadFormat;
use lines::character_record::CharacterRecord;
use lines::line::Line;
use lines::mark_record::MarkRecord;
use lines::reversal::Reversed;
use lines::sampling::Sampled;
use receiver::promise::never_deaf_and_never_deceived;
use receiver::receiver::Receiver;

// Over mark records.
pub fn over_mark_records<F: ReadFormat>(receiver: &Receiver<F>, marks: &MarkRecord) -> u8
    ensures promise { ReceiverPromise F.ReadFormat F.Fault.Fault (λ (l : MarkRecord). map mark_of l.octets.now) }
    ensures distance { result ≡ (model_of F.ReadFormat.model receiver.now).distance }
{
    never_deaf_and_never_deceived(receiver, marks)
}

// Over character records.
pub fn over_character_records<F: ReadFormat>(
    receiver: &Receiver<F>,
    characters: &CharacterRecord,
) -> u8
    ensures promise { ReceiverPromise F.ReadFormat F.Fault.Fault (λ (l : CharacterRecord). left_from l.place l.octets.now) }
    ensures distance { result ≡ (model_of F.ReadFormat.model receiver.now).distance }
{
    never_deaf_and_never_deceived(receiver, characters)
}

// Over any line with its pair reversed.
pub fn over_reversed<F: ReadFormat, L: Line>(receiver: &Receiver<F>, reversed: &Reversed<L>) -> u8
    ensures promise { ReceiverPromise F.ReadFormat F.Fault.Fault (λ (l : Reversed L). map exchanged (L.Line.pending l.below)) }
    ensures distance { result ≡ (model_of F.ReadFormat.model receiver.now).distance }
{
    never_deaf_and_never_deceived(receiver, reversed)
}

// Over any line that is sampled.
pub fn over_sampled<F: ReadFormat, L: Line>(receiver: &Receiver<F>, sampled: &Sampled<L>) -> u8
    ensures promise { ReceiverPromise F.ReadFormat F.Fault.Fault (λ (l : Sampled L). threes (held l.kept ++ L.Line.pending l.below)) }
    ensures distance { result ≡ (model_of F.ReadFormat.model receiver.now).distance }
{
    never_deaf_and_never_deceived(receiver, sampled)
}
