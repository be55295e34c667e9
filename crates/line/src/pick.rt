ghost use Rattle.std.specs.Prelude.{◌≡◌, ◌<◌, true, length, IfSome};
ghost use Rattle.words.specs.declared.kind.Kind.TheVariants.{Level as LevelKind};
ghost use Rattle.words.specs.Kinds.{in_range};
ghost use Rattle.words.specs.Words.{word_of};
ghost use Rattle.line.specs.Picks.{level_pick, numbers_hold, pick_words, height_at, lowest_terms, pivot_placed, in_reach, pick_lawful};
ghost use Rattle.line.specs.Words.{Read};

use family::Span;
use slope::{gcd, value_at};
use words::{Kind, Word, payload};

// A line by its pivot, a tick at which its height is whole, by that height, and by its slope, rise and over.
#[derive(Clone, Copy)]
pub struct Pick {
    pub pivot: u32,
    pub height: i32,
    pub rise: i32,
    pub over: u32,
}

// The word of a kind that holds a number. It asks for a number in range, so it is no call for buyers.
fn word(kind: Kind, number: i32) -> u32
    requires { in_range kind number ≡ true }
    ensures { result ≡ word_of kind number }
{
    u32::from(Word::new(kind, number).unwrap())
}

impl Pick {
    // The line of a state that has taken nothing: slope 0, height 0, pivot 0.
    pub(crate) fn level() -> Pick
        ensures { result ≡ level_pick }
    {
        Pick {
            pivot: 0,
            height: 0,
            rise: 0,
            over: 1,
        }
    }

    // Writes the four words.
    pub(crate) fn write(&self, slot: &mut [u32])
        requires long { length slot.old ≡ 4 }
        requires held { numbers_hold self.now ≡ true }
        ensures { slot.new ≡ pick_words self.now }
    {
        slot.copy_from_slice(&[
            word(Kind::Pivot, self.pivot as i32),
            word(Kind::Height, self.height),
            word(Kind::Rise, self.rise),
            word(Kind::Over, self.over as i32),
        ]);
    }

    // The pick that four words say: none, where a word is of another kind or out of range.
    pub(crate) fn read(words: &[u32]) -> Option<Pick>
        requires { length words.now ≡ 4 }
        ensures is { Read words.now result }
        ensures over { IfSome result (λ p. 0 < p.over) }
    {
        let _ = Kind::Pivot.read(words[0])?;
        let height = Kind::Height.read(words[1])?;
        let rise = Kind::Rise.read(words[2])?;
        let _ = Kind::Over.read(words[3])?;
        Some(Pick {
            pivot: payload(words[0]),
            height,
            rise,
            over: payload(words[3]),
        })
    }

    // Whether rise and over have no common divisor above 1.
    fn is_lowest_terms(&self) -> bool
        ensures { result ≡ lowest_terms self.now }
    {
        gcd(self.rise.unsigned_abs() as u64, self.over as u64) == 1
    }

    // Whether the pivot is at most the last tick, and from 0 to over − 1 past the first.
    fn is_placed(&self, span: Span) -> bool
        ensures { result ≡ pivot_placed self.now span.first span.last }
    {
        span.holds(self.pivot) && self.pivot - span.first < self.over
    }

    // The height at a tick, rounded down.
    fn height_at(&self, tick: u32) -> i128
        requires { 0 < self.now.over }
        ensures { result ≡ height_at self.now tick }
    {
        value_at(self.height, self.rise, self.over, self.pivot, tick)
    }

    // Whether the height at a tick, rounded down, is within ±1,000,000.
    fn is_in_reach(&self, tick: u32) -> bool
        requires { 0 < self.now.over }
        ensures { result ≡ in_reach self.now tick }
    {
        (-1_000_000..=1_000_000).contains(&self.height_at(tick))
    }

    // Whether the pick is lawful for a first and a last tick.
    pub(crate) fn is_lawful(&self, span: Span) -> bool
        requires { 0 < self.now.over }
        ensures { result ≡ pick_lawful self.now span.first span.last }
    {
        self.is_lowest_terms()
            && self.is_placed(span)
            && self.is_in_reach(span.first)
            && self.is_in_reach(span.last)
    }

    // The LEVEL word of the height at a tick.
    pub(crate) fn level_at(&self, tick: u32) -> u32
        requires over { 0 < self.now.over }
        requires reach { in_reach self.now tick ≡ true }
        ensures { result ≡ word_of LevelKind (height_at self.now tick) }
    {
        word(Kind::Level, self.height_at(tick) as i32)
    }
}
