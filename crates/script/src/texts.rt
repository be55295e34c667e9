ghost use Rattle.std.specs.Prelude.{◌≡◌, ◌^◌, ◌<◌, ◌++◌, IfSome, OnOk};
ghost use Rattle.script.specs.Rows.{item_words, end_of, band_of, mask_of, any_of};

use super::{Item, Slip, digits};
use std::alloc::AllocError;
use std::str::FromStr;
use words::Kind;

impl Item {
    // Adds the item's words to the row.
    pub fn add(self, row: &mut Vec<u32>) -> Result<(), AllocError>
        ensures { OnOk result (row.new.items ≡ row.old.items ++ item_words self) }
    {
        match self {
            Item::Band(low, high) => {
                row.push(low)?;
                row.push(high)?;
            }
            Item::One(word) => row.push(word)?,
        }
        Ok(())
    }
}

// The greatest payload of a word.
const TOP: u32 = 268_435_455;

// What is added to an end to make its payload, and so how far the lowest end is below 0.
const BIAS: u32 = 2_000_000;

// The payload of a band's end, -2,000,000 to 266,435,455.
fn end(text: &str) -> Option<u32>
    ensures value { result ≡ end_of text.now }
    ensures bound { IfSome result (λ n. n < 2 ^ 28) }
{
    match text.strip_prefix('-') {
        Some(rest) => digits::number(rest, BIAS).map(|n| BIAS - n),
        None => digits::number(text, TOP - BIAS).map(|n| BIAS + n),
    }
}

// The words of a band.
fn band(low: &str, high: &str) -> Option<Item>
    ensures { result ≡ band_of low.now high.now }
{
    let low = Kind::Low.with_payload(end(low)?);
    let high = Kind::High.with_payload(end(high)?);
    Some(Item::Band(low, high))
}

// The word of a mask, from the text after its `m`.
fn mask(text: &str) -> Option<Item>
    ensures { result ≡ mask_of text.now }
{
    digits::number(text, TOP).map(|payload| Item::One(Kind::Mask.with_payload(payload)))
}

// Any word, from the text after its `x`.
fn any_word(text: &str) -> Option<Item>
    ensures { result ≡ any_of text.now }
{
    digits::word(text).map(Item::One)
}

impl FromStr for Item {
    type Err = Slip;

    ghost use Rattle.script.specs.Rows.{ReadItem};

    ghost from_str_gives = { ReadItem };

    // The item that a text writes: a mask `mN`, a word `xHHHHHHHH` or a band `a..b`.
    fn from_str(text: &str) -> Result<Item, Slip> {
        if let Some(rest) = text.strip_prefix('m') {
            mask(rest).ok_or(Slip::Mask)
        } else if let Some(rest) = text.strip_prefix('x') {
            any_word(rest).ok_or(Slip::Word)
        } else if let Some((low, high)) = text.split_once("..") {
            band(low, high).ok_or(Slip::End)
        } else {
            Err(Slip::Item)
        }
    }
}
