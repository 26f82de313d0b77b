// Where a receiver is between two marks.
ghost use Rattle.std.specs.Prelude.{◌≡◌, ◌≢◌, ◌<◌, ℕ, slice_set, MatchOption};
ghost use Rattle.formats.specs.Laws.{Model};
ghost use Rattle.hearing.specs.Rules as rules;
ghost use Rattle.hearing.specs.declared.answer.State.TheVariants as state;
ghost use Rattle.receiver.specs.Stages.{kept, state_kept, with_mark, with_octet};
ghost use Rattle.receiver.specs.declared.stage.Stage.TheVariants.{Holding};

use crate::receiver::FRAME_OCTETS;

// What is kept of an open list: how many marks it has, and how many user octets they told.
#[derive(Clone, Copy, Default)]
pub(crate) struct OpenList {
    pub(crate) marks: u16,
    pub(crate) octets: u8,
}

impl OpenList {
    // With one mark more. An open list has fewer than 65,535, so nothing wraps.
    pub(crate) fn with_mark(self) -> Self
        ensures { self.marks < 65535 → result ≡ with_mark self }
    {
        OpenList {
            marks: self.marks.wrapping_add(1),
            ..self
        }
    }

    // With one user octet more, which is written to the frame at its own number. An open list tells at most 255, so each is.
    pub(crate) fn with_octet(self, octet: u8, frame: &mut [u8; FRAME_OCTETS]) -> Self
        ensures more { self.octets < 255 → result ≡ with_octet self }
        ensures written { self.octets < 255 → frame.new ≡ slice_set frame.old self.octets octet }
    {
        if self.octets < 255 {
            frame[self.octets as usize] = octet;
        }
        OpenList {
            octets: self.octets.wrapping_add(1),
            ..self
        }
    }
}

#[derive(Clone, Copy)]
pub(crate) enum Stage {
    Waiting,
    Ready,
    Open(OpenList),
    // a frame, by the number of its kind, since formats differ in their kinds
    Holding { kind: u8, octets: u8 },
}

impl Stage {
    // Where a receiver is that is in no list and holds no frame.
    pub(crate) fn resting(gap: u16, run: u16) -> Self
        ensures { (m : Model) → result ≡ kept m (rules.resting gap run) }
    {
        if run < gap {
            Stage::Waiting
        } else {
            Stage::Ready
        }
    }

    // How many user octets the frame has that is held; none where no frame is held.
    pub(crate) fn held(self) -> Option<u8>
        ensures { MatchOption result (state_kept self ≢ state.Holding) (λ octets. (kind : ℕ) × (self ≡ Holding kind octets)) }
    {
        match self {
            Stage::Holding { kind: _, octets } => Some(octets),
            _ => None,
        }
    }
}
