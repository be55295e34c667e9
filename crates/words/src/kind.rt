ghost use Rattle.std.specs.Prelude.{◌≡◌};
ghost use Rattle.words.specs.Kinds.{kind_number, bias, least, most, in_range, Named};

use std::error::Error;
use std::fmt;

// What a word holds. The kind's number is the word's top four bits; the numbers 0 and 13 are no kind's.
#[derive(Clone, Copy, PartialEq, Eq, Debug)]
pub enum Kind {
    // the lowest value that a reading allows
    Low = 1,
    // the highest value that a reading allows
    High = 2,
    // a set of the grades 0 to 27: bit g stands for grade g
    Mask = 3,
    // the first tick of a segment that continues a batch
    Start = 4,
    // the first tick of a batch's first segment
    Batch = 5,
    // a segment's last tick
    End = 6,
    // a level
    Level = 7,
    // a tick at which a line's height is whole
    Pivot = 8,
    // a line's height at its pivot
    Height = 9,
    // how far a line rises over `Over` ticks
    Rise = 10,
    // the ticks over which a line rises by `Rise`
    Over = 11,
    // one grade
    Grade = 12,
    // the first word of a tape: the width of its picks
    Tape = 14,
    // the second word of a tape: how many records it has
    Count = 15,
}

// Why a number is no kind's, or 32 bits are no word.
#[derive(Clone, Copy, PartialEq, Eq, Debug)]
pub enum NotAWord {
    // the number, or the bits' top four, are no kind's
    UnknownKind,
    // the payload is out of the kind's range
    OutOfRange,
}

impl fmt::Display for NotAWord {
    fn fmt<W: fmt::Write>(&self, f: &mut fmt::Formatter<W>) -> fmt::Result {
        f.write_str(match self {
            NotAWord::UnknownKind => "no kind of word has this number",
            NotAWord::OutOfRange => "the payload is out of the kind's range",
        })
    }
}

impl Error for NotAWord {}

// The kind's number, 1 to 15.
impl From<Kind> for u32 {
    ghost from_gives = { λ kind number. number ≡ kind_number kind };

    fn from(kind: Kind) -> u32 {
        kind as u32
    }
}

// The kind of a number, if it is one's.
impl TryFrom<u32> for Kind {
    type Error = NotAWord;

    ghost try_from_gives = { Named };

    fn try_from(number: u32) -> Result<Kind, NotAWord> {
        match number {
            1 => Ok(Kind::Low),
            2 => Ok(Kind::High),
            3 => Ok(Kind::Mask),
            4 => Ok(Kind::Start),
            5 => Ok(Kind::Batch),
            6 => Ok(Kind::End),
            7 => Ok(Kind::Level),
            8 => Ok(Kind::Pivot),
            9 => Ok(Kind::Height),
            10 => Ok(Kind::Rise),
            11 => Ok(Kind::Over),
            12 => Ok(Kind::Grade),
            14 => Ok(Kind::Tape),
            15 => Ok(Kind::Count),
            _ => Err(NotAWord::UnknownKind),
        }
    }
}

impl Kind {
    // What is added to the number to make the payload.
    pub(crate) fn bias(self) -> i32
        ensures { result ≡ bias self }
    {
        match self {
            Kind::Low | Kind::High | Kind::Level | Kind::Height | Kind::Rise => 2_000_000,
            _ => 0,
        }
    }

    // The least number that a word of this kind holds.
    pub(crate) fn least(self) -> i32
        ensures { result ≡ least self }
    {
        match self {
            Kind::Low | Kind::High | Kind::Level | Kind::Height => -1_000_000,
            Kind::Rise => -2_000_000,
            Kind::Over => 1,
            _ => 0,
        }
    }

    // The greatest number that a word of this kind holds.
    pub(crate) fn most(self) -> i32
        ensures { result ≡ most self }
    {
        match self {
            Kind::Low | Kind::High | Kind::Level | Kind::Height | Kind::Count => 1_000_000,
            Kind::Rise => 2_000_000,
            Kind::Over => 255,
            Kind::Grade => 27,
            Kind::Tape => 13,
            _ => 268_435_455,
        }
    }

    // Whether a word of this kind holds the number.
    pub fn holds(self, number: i32) -> bool
        ensures { result ≡ in_range self number }
    {
        self.least() <= number && number <= self.most()
    }
}
