ghost use Rattle.std.specs.Prelude.{◌≡◌, ◌<◌, pos, ◌-ℤ◌, ◌*ℤ◌};
ghost use Rattle.std.specs.Int.{int_div_euclid};
ghost use Rattle.slope.specs.Values.{Floor, value_at};

use crate::product::times;

// What a line rises from the pivot to a tick, times its over. It fits: 32 bits times at most 32 bits and a sign.
fn gain(rise: i32, pivot: u32, tick: u32) -> i64
    ensures { result ≡ rise *ℤ (pos tick -ℤ pos pivot) }
{
    rise as i64 * (tick as i64 - pivot as i64)
}

// A quotient rounded down, also below zero.
pub fn floor_quotient(a: i64, over: u32) -> i64
    requires { 0 < over }
    ensures is { result ≡ int_div_euclid a (pos over) }
    ensures floor { Floor a over result }
{
    a.div_euclid(over as i64)
}

// How much higher the line of slope rise / over is at a tick than at the pivot, rounded down.
fn climb(rise: i32, over: u32, pivot: u32, tick: u32) -> i64
    requires { 0 < over }
    ensures { result ≡ int_div_euclid (rise *ℤ (pos tick -ℤ pos pivot)) (pos over) }
{
    floor_quotient(gain(rise, pivot, tick), over)
}

// The height at a tick, rounded down, of the line of slope rise / over that has this height at the pivot.
pub fn value_at(height: i32, rise: i32, over: u32, pivot: u32, tick: u32) -> i128
    requires { 0 < over }
    ensures { result ≡ value_at pivot height rise over tick }
{
    height as i128 + climb(rise, over, pivot, tick) as i128
}

// The height, some overs earlier, of a line that has this height: a rise less for each.
pub fn height_before(height: i32, rise: i64, overs: u32) -> i128
    ensures { result ≡ height -ℤ rise *ℤ pos overs }
{
    height as i128 - times(rise, overs as i64)
}
