ghost use Rattle.std.specs.Prelude.{◌≡◌};
ghost use Rattle.words.specs.Words.{tick_in_range};

// The last tick of all. A tick is a point of time, 0 to 268,435,455.
pub const TOP_TICK: u32 = 268_435_455;

// Whether the number is a tick.
pub fn is_tick(number: u32) -> bool
    ensures { result ≡ tick_in_range number }
{
    number <= TOP_TICK
}
