ghost use Rattle.std.specs.Prelude.{◌≡◌, ◌<◌, ◌+ℤ◌, unsigned_abs};
ghost use Rattle.words.specs.Kinds.{bias};
ghost use Rattle.words.specs.Words.{top_bits, payload, of_kind, held, tagged, Made, Parts, TakenApart, Written};

use super::{Kind, NotAWord, Word};

// The number of values of a payload, 2^28.
const PAYLOADS: u32 = 268_435_456;

// The low 28 bits of a word.
pub fn payload(bits: u32) -> u32
    ensures { result ≡ payload bits }
{
    bits % PAYLOADS
}

// The top four bits of a word.
fn top_bits(bits: u32) -> u32
    ensures { result ≡ top_bits bits }
{
    bits / PAYLOADS
}

impl Kind {
    // Whether the word's top bits are this kind's number.
    pub fn names(self, bits: u32) -> bool
        ensures { result ≡ of_kind self bits }
    {
        top_bits(bits) == u32::from(self)
    }

    // The number that the word holds, if it is of this kind and in range.
    pub fn read(self, bits: u32) -> Option<i32>
        ensures { result ≡ held self bits }
    {
        let number = payload(bits) as i32 - self.bias();
        (self.names(bits) && self.holds(number)).then_some(number)
    }

    // The word of this kind with a payload, in the kind's range or not: of the payload its low 28 bits.
    pub fn with_payload(self, payload: u32) -> u32
        ensures { result ≡ tagged self payload }
    {
        u32::from(self) * PAYLOADS + payload % PAYLOADS
    }
}

// The kind of a word and the number that it holds.
fn parts(bits: u32) -> Result<(Kind, i32), NotAWord>
    ensures { Parts bits result }
{
    let kind = Kind::try_from(top_bits(bits))?;
    let number = kind.read(bits).ok_or(NotAWord::OutOfRange)?;
    Ok((kind, number))
}

impl Word {
    // The word of a kind that holds a number, if the kind's words hold it.
    pub fn new(kind: Kind, number: i32) -> Option<Word>
        ensures { Made kind number result }
    {
        if kind.holds(number) {
            Some(Word { kind, number })
        } else {
            None
        }
    }

    // The number and the bias.
    fn payload(self) -> u32
        ensures value { result ≡ unsigned_abs (self.number +ℤ bias self.kind) }
        ensures small { result < 268435456 }
    {
        (self.number + self.kind.bias()) as u32
    }
}

// Takes a word apart.
impl TryFrom<u32> for Word {
    type Error = NotAWord;

    ghost try_from_gives = { TakenApart };

    fn try_from(bits: u32) -> Result<Word, NotAWord> {
        let (kind, number) = parts(bits)?;
        Ok(Word { kind, number })
    }
}

// The word's 32 bits.
impl From<Word> for u32 {
    ghost from_gives = { Written };

    fn from(word: Word) -> u32 {
        word.kind.with_payload(word.payload())
    }
}
