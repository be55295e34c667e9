ghost use Rattle.std.specs.Prelude.{◌≡◌};
ghost use Rattle.slope.specs.Slopes.{less_steep, steeper};

use crate::product::times;

// Whether slope a is below slope b.
pub fn flatter(a: (i64, i64), b: (i64, i64)) -> bool
    ensures { result ≡ less_steep a b }
{
    times(a.0, b.1) < times(b.0, a.1)
}

// The steeper of two slopes; a, where they are the same slope.
pub fn steeper(a: (i64, i64), b: (i64, i64)) -> (i64, i64)
    ensures { result ≡ steeper a b }
{
    if flatter(a, b) { b } else { a }
}
