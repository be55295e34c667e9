ghost use Rattle.std.specs.Prelude.{◌≡◌, ◌≤◌, IfOk};
ghost use Rattle.std.specs.Option.{ok_or};
ghost use Rattle.script.specs.Numbers.{number_of, word_of};
ghost use Rattle.commands.specs.Bounds.{Narrow};

use super::{Form, Unread};
use script::{Item, number};
use std::alloc::Global;

// A store's length in words.
const LONGEST: u32 = 16_000_000;

// An answer row's width in words.
const WIDEST: u32 = 1_000_000;

// A tick or an index: any number of 32 bits.
pub(crate) fn any_number(text: &str, unread: Unread) -> Result<u32, Unread>
    ensures { result ≡ ok_or (number_of text.now 4294967295) unread }
{
    number(text, u32::MAX).ok_or(unread)
}

pub(crate) fn length(text: &str) -> Result<u32, Unread>
    ensures value { result ≡ ok_or (number_of text.now 16000000) Unread.Length }
    ensures bound { IfOk result (λ n. n ≤ 16000000) }
{
    number(text, LONGEST).ok_or(Unread::Length)
}

pub(crate) fn word(text: &str) -> Result<u32, Unread>
    ensures { result ≡ ok_or (word_of text.now) Unread.Word }
{
    script::word(text).ok_or(Unread::Word)
}

// The width, if the line writes one after the tick.
pub(crate) fn width(texts: &[&str], form: Form) -> Result<Option<u32>, Unread>
    ensures { IfOk result Narrow }
{
    match texts {
        [] => Ok(None),
        [text] => number(text, WIDEST).map(Some).ok_or(Unread::Width),
        _ => Err(Unread::Arguments(form)),
    }
}

// The row of a reading: the words of its items in order.
pub(crate) fn row(heap: Global, texts: &[&str]) -> Result<Vec<u32>, Unread> {
    let mut row = Vec::new(heap);
    for text in texts {
        text.parse::<Item>()?.add(&mut row)?;
    }
    Ok(row)
}

// The words of a store.
pub(crate) fn words(heap: Global, texts: &[&str]) -> Result<Vec<u32>, Unread> {
    texts.iter().map(|text| word(text)).try_collect(heap)
}
