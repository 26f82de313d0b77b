// The receiver's promise for FT1.2. It stands beside FT2's, since each is a theorem that a contract has to name.
ghost use Rattle.std.specs.Prelude.{◌≡◌, ◌++◌, map, replicate};
ghost use Rattle.lines.specs.Entries.{left_from};
ghost use Rattle.lines.specs.Layers.{exchanged, held, threes};
ghost use Rattle.lines.specs.Records.{mark_of};
ghost use Rattle.promises.specs.Ft12Receivers.{Ft12Promise};

use crate::each_line::{over_character_records, over_mark_records, over_reversed, over_sampled};
use ft12::format::Ft12;
use lines::character_record::CharacterRecord;
use lines::line::Line;
use lines::mark_record::MarkRecord;
use lines::reversal::Reversed;
use lines::sampling::Sampled;
use receiver::receiver::Receiver;

// Over mark records, over character records, over any line with its pair reversed, and over any line that is sampled: the
// distance, each time.
pub fn ft12_over_each_line<L: Line>(
    receiver: &Receiver<Ft12>,
    marks: &MarkRecord,
    characters: &CharacterRecord,
    reversed: &Reversed<L>,
    sampled: &Sampled<L>,
) -> [u8; 4]
    ensures mark_records { Ft12Promise (λ (l : MarkRecord). map mark_of l.octets.now) }
    ensures character_records { Ft12Promise (λ (l : CharacterRecord). left_from l.place l.octets.now) }
    ensures reversed { Ft12Promise (λ (l : Reversed L). map exchanged (L.Line.pending l.below)) }
    ensures sampled { Ft12Promise (λ (l : Sampled L). threes (held l.kept ++ L.Line.pending l.below)) }
    ensures distances { result ≡ replicate 4 4 }
{
    [
        over_mark_records(receiver, marks),
        over_character_records(receiver, characters),
        over_reversed(receiver, reversed),
        over_sampled(receiver, sampled),
    ]
}
