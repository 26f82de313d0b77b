// Writing a frame: its characters, one after the other.
ghost use Rattle.std.specs.Prelude.{◌≡◌, ◌+◌, ◌*◌, ◌<◌, ◌≤◌, true, false, length, map, MatchResult};
ghost use Rattle.lines.specs.Characters.{character};
ghost use Rattle.lines.specs.Records.{mark_octet};
ghost use Rattle.formats.specs.Putting.{Put};
ghost use Rattle.formats.specs.declared.refusal.WriteRefusal.TheVariants.{ShortBuffer, WrongCount};
ghost use Rattle.ft12_laws.specs.Frames.{characters, closed, count_suits, frame_marks, sum_of};

use formats::refusal::WriteRefusal;
use ft12_laws::kind::Kind;
use lines::character::character;

// Puts the eleven marks of an octet's character, and answers where they end.
fn put_character(marks: &mut [u8], at: usize, octet: u8) -> usize
    requires { at + 11 ≤ length marks.old }
    ensures { Put at (character octet) marks.old result marks.new }
{
    let end = at + 11;
    marks[at..end].copy_from_slice(&character(octet).map(u8::from));
    end
}

// Puts the characters of octets, one after the other.
fn put_characters(marks: &mut [u8], at: usize, octets: &[u8]) -> usize
    requires { at + 11 * length octets.now ≤ length marks.old }
    ensures { Put at (characters octets.now) marks.old result marks.new }
{
    let mut next = at;
    for octet in octets {
        next = put_character(marks, next, *octet);
    }
    next
}

// The sum of all user octets modulo 256.
fn sum(octets: &[u8]) -> u8
    ensures { result ≡ sum_of octets.now }
{
    octets
        .iter()
        .fold(0, |sum: u8, octet| sum.wrapping_add(*octet))
}

// A kind with user octets whose count suits it.
#[derive(Clone, Copy)]
pub struct Frame<'a> {
    kind: Kind,
    octets: &'a [u8],
    ghost few: { length octets.now < 256 },
}

impl<'a> Frame<'a> {
    // A count of user octets that does not suit the kind is refused.
    pub fn new(fixed_length: u8, kind: Kind, octets: &'a [u8]) -> Result<Self, WriteRefusal>
        ensures { MatchResult result (λ f. (f.kind ≡ kind) × (f.octets.now ≡ octets.now) × (count_suits fixed_length kind (length octets.now) ≡ true)) (λ e. (e ≡ WrongCount) × (count_suits fixed_length kind (length octets.now) ≡ false)) }
    {
        let suits = match kind {
            Kind::Fixed => octets.len() == usize::from(fixed_length),
            Kind::Variable => octets.len() < 256,
            Kind::SingleE5 | Kind::SingleA2 => octets.is_empty(),
        };
        if !suits {
            return Err(WriteRefusal::WrongCount);
        }
        Ok(Frame { kind, octets })
    }

    // How many marks the frame has.
    fn mark_count(&self) -> usize
        ensures { result ≡ length (frame_marks (Some self.now.kind) self.now.octets.now) }
    {
        match self.kind {
            Kind::Fixed => 11 * (self.octets.len() + 3),
            Kind::Variable => 11 * (self.octets.len() + 6),
            Kind::SingleE5 | Kind::SingleA2 => 11,
        }
    }

    // Puts the user octets with their sum and the end character.
    fn put_closed(&self, marks: &mut [u8], at: usize) -> usize
        requires { at + 11 * (length self.now.octets.now + 2) ≤ length marks.old }
        ensures { Put at (characters (closed self.now.octets.now)) marks.old result marks.new }
    {
        let next = put_characters(marks, at, self.octets);
        put_characters(marks, next, &[sum(self.octets), 0x16])
    }

    // Puts the marks from the first octet of the mark buffer on, and answers their count. A buffer without room for them
    // is refused.
    pub fn put(&self, marks: &mut [u8]) -> Result<usize, WriteRefusal>
        ensures { MatchResult result (λ n. (n ≤ length marks.old) × Put 0 (frame_marks (Some self.now.kind) self.now.octets.now) marks.old n marks.new) (λ e. (e ≡ ShortBuffer) × (marks.new ≡ marks.old) × (length marks.old < length (frame_marks (Some self.now.kind) self.now.octets.now))) }
    {
        if marks.len() < self.mark_count() {
            return Err(WriteRefusal::ShortBuffer);
        }
        match self.kind {
            Kind::Fixed => {
                let next = put_characters(marks, 0, &[0x10]);
                Ok(self.put_closed(marks, next))
            }
            Kind::Variable => {
                let length = self.octets.len() as u8;
                let next = put_characters(marks, 0, &[0x68, length, length, 0x68]);
                Ok(self.put_closed(marks, next))
            }
            Kind::SingleE5 => Ok(put_characters(marks, 0, &[0xE5])),
            Kind::SingleA2 => Ok(put_characters(marks, 0, &[0xA2])),
        }
    }
}
