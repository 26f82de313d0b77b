// Frames worked by hand.
ghost use Rattle.std.specs.Prelude.{◌≡◌};
ghost use Rattle.ft12_laws.specs.Worked.{Worked};

// How many there are: the two single characters, one frame of fixed length and two of variable length, all true of the
// definitions.
pub fn worked_frames() -> u8
    ensures count { result ≡ 5 }
    ensures hold { Worked }
{
    2 + 1 + 2
}
