ghost use Rattle.std.specs.Prelude.{◌≡◌, ◌-ℤ◌, ◌*ℤ◌, neg_ℤ};
ghost use Rattle.slope.specs.Values.{Modest};

// A product that never wraps.
pub(crate) fn times(a: i64, b: i64) -> i128
    ensures is { result ≡ a *ℤ b }
    ensures modest { Modest result }
{
    (a as i128) * (b as i128)
}

// The same, negated.
pub(crate) fn minus_times(a: i64, b: i64) -> i128
    ensures { result ≡ neg_ℤ (a *ℤ b) }
{
    -times(a, b)
}

// A difference that never wraps.
fn less(a: i128, b: i128) -> i128
    requires { (Modest a) × (Modest b) }
    ensures { result ≡ a -ℤ b }
{
    a - b
}

// The difference of two products.
pub fn times_less_times(a: i64, b: i64, c: i64, d: i64) -> i128
    ensures { result ≡ a *ℤ b -ℤ c *ℤ d }
{
    less(times(a, b), times(c, d))
}
