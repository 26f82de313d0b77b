// Frames, checks and receiver cases worked by hand, shown true of the definitions.
#![tactic(auto)]

ghost use Rattle.std.specs.Prelude.{◌≡◌};
ghost use Rattle.worked.specs.Cases.{AllWorked};

// How many cases there are: five FT1.2 frames, five check octets, three FT2 frames, four of a receiver.
pub fn all_worked() -> u8
    ensures count { result ≡ 17 }
    ensures hold { AllWorked }
{
    5 + 5 + 3 + 4
}
