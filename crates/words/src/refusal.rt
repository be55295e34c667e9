ghost use Rattle.std.specs.Prelude.{◌≡◌};
ghost use Rattle.words.specs.Refusals.{reason_number, refusal_at, refusal_of};

use std::error::Error;
use std::fmt;

// Why a call was refused.
#[derive(Clone, Copy, PartialEq, Eq, Debug)]
pub enum Reason {
    // the row has not as many words as the family's rows
    RowLength = 1,
    // a word of the row is of a wrong kind or out of range; the place is its index
    BadWord = 2,
    // no choice serves the reading alone
    NoChoice = 3,
    // the reading does not fit what was taken before
    Unfitting = 4,
    // the tick is out of range, or on recording not above the last accepted one
    BadTick = 5,
    // marking with nothing accepted since opening or the last mark
    NothingToMark = 6,
    // no segment spans the tick, or there is no such item
    NoSegment = 7,
    // the store's length or the pick's width is not as at opening
    OtherStore = 8,
    // the answer row, the slot or the pick words have a wrong length
    WordsLength = 9,
    // a new run is needed and no place is left
    NoPlace = 10,
    // a rule of the tape is broken, or the pick words are unlawful
    Unlawful = 11,
}

// The number by which the reason is known, 1 to 11.
impl From<Reason> for u8 {
    ghost from_gives = { λ reason number. number ≡ reason_number reason };

    fn from(reason: Reason) -> u8 {
        reason as u8
    }
}

impl fmt::Display for Reason {
    fn fmt<W: fmt::Write>(&self, f: &mut fmt::Formatter<W>) -> fmt::Result {
        f.write_str(match self {
            Reason::RowLength => "the row has the wrong number of words",
            Reason::BadWord => "a word of the row is of a wrong kind or out of range",
            Reason::NoChoice => "no choice serves the reading, even alone",
            Reason::Unfitting => "the reading does not fit the run",
            Reason::BadTick => "the tick is above 268435455 or not above the last one accepted",
            Reason::NothingToMark => "nothing was accepted since opening or the last mark",
            Reason::NoSegment => "no segment spans the tick, or there is no such item",
            Reason::OtherStore => "the store's length or the pick's width is not as at opening",
            Reason::WordsLength => "the answer row, slot or pick words have the wrong length",
            Reason::NoPlace => "a new run is needed and no place is left",
            Reason::Unlawful => "a rule of the tape is broken or the pick words are unlawful",
        })
    }
}

// A refusal: its reason, and its place, which is 0 unless the reason tells of one.
#[derive(Clone, Copy, PartialEq, Eq, Debug)]
pub struct Refusal {
    pub reason: Reason,
    pub place: usize,
}

impl Refusal {
    // A refusal at place 0.
    pub fn new(reason: Reason) -> Refusal
        ensures { result ≡ refusal_of reason }
    {
        Refusal { reason, place: 0 }
    }

    // A refusal at a place.
    pub fn at(reason: Reason, place: usize) -> Refusal
        ensures { result ≡ refusal_at reason place }
    {
        Refusal { reason, place }
    }

    // The number of its reason.
    pub fn number(self) -> u8
        ensures { result ≡ reason_number self.reason }
    {
        u8::from(self.reason)
    }
}

impl Error for Refusal {}

impl fmt::Display for Refusal {
    fn fmt<W: fmt::Write>(&self, f: &mut fmt::Formatter<W>) -> fmt::Result {
        let number = self.number();
        let place = self.place;
        let reason = self.reason;
        write!(f, "refused {number} at {place}: {reason}")
    }
}
