// Reading a character, mark by mark.
ghost use Rattle.std.specs.Prelude.{◌≡◌, ℕ};
ghost use Rattle.lines.specs.Characters.{mark_if};
ghost use Rattle.ft12_laws.specs.declared.reading.Place.{Place};
ghost use Rattle.ft12_laws.specs.Machine as machine;
ghost use Rattle.ft12.specs.Steps.{Stepped};

use formats::fault::good_mark;
use ft12_laws::fault::CharacterFault;
use ft12_laws::reading::Part;
use lines::character::parity_mark;
use lines::mark::Mark;

// A character goes on with another part, or is whole.
#[derive(Clone, Copy)]
pub enum Step {
    Within(Part),
    Whole(u8),
}

// A data mark comes in as the octet's highest bit and moves the others down.
fn moved_in(octet: u8, one: bool) -> u8
    ensures { result ≡ machine.moved_in octet (mark_if one) }
{
    octet / 2 + 128 * u8::from(one)
}

// A mark, by its part in the character. A bad one is told first.
pub fn take_mark(part: Part, mark: Mark) -> Result<Step, CharacterFault>
    ensures { (p : Place) (fixed : ℕ) → Stepped p fixed part mark result }
{
    let one = good_mark(mark)?;
    match part {
        Part::Start if one => Err(CharacterFault::StartMark),
        Part::Start => Ok(Step::Within(Part::Bit(7, 0))),
        Part::Bit(0, octet) => Ok(Step::Within(Part::Parity(moved_in(octet, one)))),
        Part::Bit(left, octet) => Ok(Step::Within(Part::Bit(left - 1, moved_in(octet, one)))),
        Part::Parity(octet) if mark != parity_mark(octet) => Err(CharacterFault::ParityMark),
        Part::Parity(octet) => Ok(Step::Within(Part::Stop(octet))),
        Part::Stop(octet) if one => Ok(Step::Whole(octet)),
        Part::Stop(_) => Err(CharacterFault::StopMark),
    }
}
