// What holds of every block of 1 to 15 octets with its check.
ghost use Rattle.checks.specs.Distance.{AlteredShows, Attained, ZerosAttained, ZerosLaw};

// In how many places two blocks of one length, each with its check, differ at least: fewer altered bits show.
pub fn distance() -> u8
    ensures shows { AlteredShows result }
    ensures attained { Attained result }
{
    4
}

// How many zeros a block with its check has at least: it is never ones only.
pub fn least_zeros() -> u8
    ensures law { ZerosLaw result }
    ensures attained { ZerosAttained result }
{
    2
}
