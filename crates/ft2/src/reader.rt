// What the reader keeps of the list so far, and what it says of a mark more.
ghost use Rattle.std.specs.Prelude.{◌≡◌, ℕ, List, [], ◌∷◌, ◌++◌, Decides};
ghost use Rattle.lines.specs.declared.mark.Mark.TheVariants.{One};
ghost use Rattle.ft2_laws.specs.Reading.{beginning, fixed_block, start, user, users};
ghost use Rattle.ft2_laws.specs.declared.reading.Block.TheVariants.{Header};
ghost use Rattle.ft2.specs.Standing.{At, AtRest, BlockJudged, Holds, Judges, StartJudged, Takes, position_of};

use checks::register::Register;
use formats::fault::good_mark;
use formats::format::Progress;
use ft2_laws::fault::Ft2Fault;
use ft2_laws::kind::Kind;
use ft2_laws::reading::{Block, Part};
use ft2_laws::settings::Settings;
use lines::mark::Mark;

// A block has at most so many octets.
const BLOCK: u8 = 15;

// The position in a frame of the octet that is being read.
#[derive(Clone, Copy)]
pub(crate) enum Position {
    Start,
    // a user octet: its block, and how many octets of the block come after it
    User { block: Block, left: u8 },
    // the check octet of a block
    Check(Block),
}

// A bounded part of what the list so far holds.
#[derive(Clone, Copy)]
pub(crate) struct Reader {
    position: Position,
    part: Part,
    // the first octet of the block
    first: Option<u8>,
    // the octets of the block taken in
    register: Register,
}

// Where so many octets of a block are to come.
fn to_come(block: Block, count: u8) -> Position
    ensures { (os : List ℕ) → result ≡ position_of (users block os count) }
{
    if count == 0 {
        Position::Check(block)
    } else {
        Position::User {
            block,
            left: count - 1,
        }
    }
}

impl Reader {
    // For the empty list.
    pub(crate) fn new() -> Self
        ensures { Holds result (beginning start) }
    {
        Reader {
            position: Position::Start,
            part: Part::First,
            first: None,
            register: Register::new(),
        }
    }

    // Whether the mark is a 1 before a frame.
    pub(crate) fn is_idle(&self, mark: Mark) -> bool
        ensures { Decides result (AtRest self.now × (mark ≡ One)) }
    {
        matches!(
            (self.position, self.part, mark),
            (Position::Start, Part::First, Mark::One)
        )
    }

    // One mark more. A bad one is a fault; the eighth mark of an octet has the octet judged.
    pub(crate) fn take(&mut self, settings: Settings, mark: Mark) -> Result<Progress, Ft2Fault>
        ensures { Takes settings self.old mark result self.new }
    {
        let bit = u8::from(good_mark(mark)?);
        match self.part {
            Part::First => {
                self.part = Part::Later(6, bit);
                Ok(Progress::Open)
            },
            Part::Later(0, octet) => {
                let progress = self.judge(settings, (octet << 1) + bit)?;
                self.part = Part::First;
                Ok(progress)
            },
            Part::Later(left, octet) => {
                self.part = Part::Later(left - 1, (octet << 1) + bit);
                Ok(Progress::Open)
            },
        }
    }

    // An octet, by its position in the frame.
    fn judge(&mut self, settings: Settings, octet: u8) -> Result<Progress, Ft2Fault>
        ensures { Judges settings self.old octet result self.new }
    {
        match self.position {
            Position::Start => self.begin_frame(settings, octet),
            Position::User { block, left } => {
                self.take_user(block, left, octet);
                Ok(Progress::Octet(octet))
            },
            Position::Check(block) if octet == self.register.check() => self.end_block(block),
            Position::Check(_) => Err(Ft2Fault::CheckOctet),
        }
    }

    // The start octet belongs to no block.
    fn begin_frame(&mut self, settings: Settings, octet: u8) -> Result<Progress, Ft2Fault>
        ensures { StartJudged settings octet result self.new }
    {
        match octet {
            0x27 => self.enter_fixed(settings.fixed),
            0x14 => self.enter(Block::Header, settings.header),
            _ => return Err(Ft2Fault::StartOctet),
        }
        Ok(Progress::Open)
    }

    // A user octet is taken into its block.
    fn take_user(&mut self, block: Block, left: u8, octet: u8)
        ensures { (os : List ℕ) → At self.old (user block os left) → At self.new (users block (os ++ (octet ∷ [])) left) }
    {
        self.first = self.first.or(Some(octet));
        self.register.take_octet(octet);
        self.position = to_come(block, left);
    }

    // The check octet of a block was right.
    fn end_block(&mut self, block: Block) -> Result<Progress, Ft2Fault>
        ensures { BlockJudged block self.old result self.new }
    {
        match block {
            Block::Fixed(0) => Ok(Progress::Frame(Kind::Fixed.into())),
            Block::Fixed(left) => {
                self.enter_fixed(left);
                Ok(Progress::Open)
            },
            Block::Header => self.end_header(),
            Block::Body => Ok(Progress::Frame(Kind::Variable.into())),
        }
    }

    // The first octet of the header is the count of body octets.
    fn end_header(&mut self) -> Result<Progress, Ft2Fault>
        ensures { BlockJudged Header self.old result self.new }
    {
        match self.first.unwrap_or(0) {
            0 => Ok(Progress::Frame(Kind::Variable.into())),
            count @ 1..=BLOCK => {
                self.enter(Block::Body, count);
                Ok(Progress::Open)
            },
            _ => Err(Ft2Fault::BodyCount),
        }
    }

    // The next block of a fixed frame, where so many user octets are to come.
    fn enter_fixed(&mut self, count: u8)
        ensures { At self.new (fixed_block count) }
    {
        self.enter(Block::Fixed(count.saturating_sub(BLOCK)), count.min(BLOCK));
    }

    // A new block.
    fn enter(&mut self, block: Block, count: u8)
        ensures { At self.new (users block [] count) }
    {
        self.position = to_come(block, count);
        self.first = None;
        self.register = Register::new();
    }
}
