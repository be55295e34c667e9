ghost use Rattle.std.specs.Prelude.{◌≡◌, ◌+◌, ◌-◌, ◌*◌, ◌<◌, ◌≤◌};
ghost use Rattle.layout.specs.Layout.{places_of, place_at, tape_word};

use words::Kind;

// The first word of a tape with picks of the width.
pub fn tape_word(width: u16) -> u32
    ensures { result ≡ tape_word width }
{
    Kind::Tape.with_payload(width.min(13) as u32)
}

// How many records a store of `length` words has room for.
pub fn places(width: u16, length: usize) -> u32
    ensures is { result ≡ places_of width length }
    ensures narrow { 0 < result → width ≤ 12 }
    ensures few { result ≤ 1000000 }
    ensures within { result * (width + 2) ≤ length - 2 }
{
    if length < 2 || width > 12 {
        return 0;
    }
    let room = (length - 2) / (width as usize + 2);
    room.min(1_000_000) as u32
}

// The index of a record's first word.
pub fn place_at(width: u16, index: u32) -> usize
    ensures { result ≡ place_at width index }
{
    2 + index as usize * (width as usize + 2)
}
