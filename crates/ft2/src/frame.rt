// A frame that can be written.
ghost use Rattle.std.specs.Prelude.{◌≡◌, ◌<◌, ◌≤◌, true, length, MatchResult};
ghost use Rattle.formats.specs.Putting.{Put};
ghost use Rattle.formats.specs.declared.refusal.WriteRefusal.TheVariants.{ShortBuffer};
ghost use Rattle.ft2_laws.specs.Frames.{count_suits, first_suits, frame_octets, marks_of};
ghost use Rattle.ft2.specs.Writing.{Unsuited};

use crate::marks::{BLOCK, put_block, put_blocks, put_octet};
use formats::refusal::WriteRefusal;
use ft2_laws::kind::Kind;
use ft2_laws::settings::Settings;

// A kind with user octets that suit it.
#[derive(Clone, Copy)]
pub(crate) struct Frame<'a> {
    settings: Settings,
    kind: Kind,
    octets: &'a [u8],
    ghost counted: { count_suits settings kind (length octets.now) ≡ true },
    ghost headed: { first_suits settings kind octets.now ≡ true },
}

impl<'a> Frame<'a> {
    // The octet count is tested before the first octet.
    pub(crate) fn new(
        settings: Settings,
        kind: Kind,
        octets: &'a [u8],
    ) -> Result<Frame<'a>, WriteRefusal>
        ensures { MatchResult result (λ f. (f.settings ≡ settings) × (f.kind ≡ kind) × (f.octets.now ≡ octets.now)) (λ e. Unsuited settings kind octets.now e) }
    {
        let count = octets.len();
        let header = usize::from(settings.header);
        let suits = match kind {
            Kind::Fixed => count == usize::from(settings.fixed),
            Kind::Variable => (header..=header + 15).contains(&count),
        };
        if !suits {
            return Err(WriteRefusal::WrongCount);
        }
        if kind == Kind::Variable && usize::from(octets[0]) != count - header {
            return Err(WriteRefusal::WrongFirst);
        }
        Ok(Frame {
            settings,
            kind,
            octets,
        })
    }

    // How many marks it has: a check octet for each block, and a start octet.
    fn length(&self) -> usize
        ensures { result ≡ length (marks_of (frame_octets self.now.settings self.now.kind self.now.octets.now)) }
    {
        let count = self.octets.len();
        let header = usize::from(self.settings.header);
        let checks = match self.kind {
            Kind::Fixed => count.div_ceil(BLOCK),
            Kind::Variable => 1 + (count - header).div_ceil(BLOCK),
        };
        8 * (1 + count + checks)
    }

    // Its octets, one after the other.
    pub(crate) fn put(&self, marks: &mut [u8]) -> Result<usize, WriteRefusal>
        ensures { let frame = marks_of (frame_octets self.now.settings self.now.kind self.now.octets.now) in
            MatchResult result (λ n. (length frame ≤ length marks.old) × Put 0 frame marks.old n marks.new) (λ e. (e ≡ ShortBuffer) × (marks.new ≡ marks.old) × (length marks.old < length frame)) }
    {
        if marks.len() < self.length() {
            return Err(WriteRefusal::ShortBuffer);
        }
        let next = match self.kind {
            Kind::Fixed => {
                let next = put_octet(marks, 0, 0x27);
                put_blocks(marks, next, self.octets)
            }
            Kind::Variable => {
                let (header, body) = self.octets.split_at(usize::from(self.settings.header));
                let next = put_octet(marks, 0, 0x14);
                let next = put_block(marks, next, header);
                put_blocks(marks, next, body)
            }
        };
        Ok(next)
    }
}
