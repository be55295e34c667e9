ghost use Rattle.std.specs.Prelude.{◌≡◌, [], ◌∷◌, length};
ghost use Rattle.words.specs.declared.refusal.Reason.TheVariants.{WordsLength};
ghost use Rattle.words.specs.Words.{number_in, word_of};
ghost use Rattle.family.specs.Refusing.{Answered, Filled, refuse_unless, right};
ghost use Rattle.family.specs.Picks.{one_word_refusal, first_of};

use super::checks::check_length;
use words::{Kind, Reason, Refusal, Word};

// Picks that are one word.

// Writes the word into a slot of one word; refuses by 9 a slot of another length, and leaves it alone.
pub fn write_pick(slot: &mut [u32], word: Word) -> Result<(), Refusal>
    ensures { Filled (refuse_unless (right 1 (length slot.old)) WordsLength) result slot.old (word_of word.kind word.number ∷ []) slot.new }
{
    check_length(1, slot.len(), Reason::WordsLength)?;
    slot[0] = u32::from(word);
    Ok(())
}

// The number that a pick of one word of the kind holds; refuses by 9 another number of words, by 11 another word.
pub fn read_pick(kind: Kind, words: &[u32]) -> Result<i32, Refusal>
    ensures { Answered (one_word_refusal kind words.now) result (λ n. n ≡ number_in kind (first_of words.now)) }
{
    check_length(1, words.len(), Reason::WordsLength)?;
    kind.read(words[0]).ok_or(Refusal::new(Reason::Unlawful))
}
