ghost use Rattle.std.specs.Int.{abs_diff};
ghost use Rattle.std.specs.Prelude.{◌≡◌, ◌*◌, pos, ◌≤ℤ◌};

use std::alloc::{AllocError, Global};
use words::{Kind, Word};

fn word(kind: Kind, number: i32) -> u32 {
    Word::new(kind, number).map_or(0, u32::from)
}

fn band(low: i32, high: i32) -> [u32; 2] {
    [word(Kind::Low, low), word(Kind::High, high)]
}

// A run of readings of one row, and one of another.
fn two_runs<const WIDTH: usize>(
    heap: Global,
    run: u32,
    first: [u32; WIDTH],
    second: [u32; WIDTH],
) -> Result<Vec<[u32; WIDTH]>, AllocError> {
    let run = run as usize;
    let mut rows = Vec::from_elem(heap, first, run)?;
    rows.resize(2 * run, second)?;
    Ok(rows)
}

// Bands around two levels, a run of readings at each.
pub fn bands(heap: Global, run: u32) -> Result<Vec<[u32; 2]>, AllocError> {
    two_runs(heap, run, band(990, 1_010), band(1_990, 2_010))
}

// Masks of one grade and of another, a run of readings each.
pub fn masks(heap: Global, run: u32) -> Result<Vec<[u32; 1]>, AllocError> {
    two_runs(heap, run, [word(Kind::Mask, 1)], [word(Kind::Mask, 2)])
}

// How far a band's ends lie from its middle at a place in the run: the square of the ticks between.
fn reach(place: u8) -> i32
    ensures value { result ≡ pos (abs_diff place 128 * abs_diff place 128) }
    ensures low { pos 0 ≤ℤ result }
    ensures high { result ≤ℤ pos 16384 }
{
    let off = u32::from(place.abs_diff(128));
    (off * off) as i32
}

// The band at a place in the run, around a middle.
fn bow(middle: i32, place: u8) -> [u32; 2]
    requires low { pos 0 ≤ℤ middle }
    requires high { middle ≤ℤ pos 500000 }
{
    let reach = reach(place);
    band(middle - reach, middle + reach)
}

// Bands that narrow to a point in the middle of each run and widen again, so that each of their ends stays on its hull.
pub fn bows(heap: Global, run: u32) -> Result<Vec<[u32; 2]>, AllocError> {
    let run = run as usize;
    let first = (0..=u8::MAX).take(run).map(|place| bow(0, place));
    let second = (0..=u8::MAX).take(run).map(|place| bow(500_000, place));
    first.chain(second).collect(heap)
}
