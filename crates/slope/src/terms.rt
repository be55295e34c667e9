ghost use Rattle.std.specs.Prelude.{◌≡◌, ◌^◌, ◌<◌, pos, ◌<ℤ◌, int_div};
ghost use Rattle.slope.specs.Slopes.{reduced_of};

use crate::divisor::gcd;

// A slope's rise and its over, each divided and rounded to zero.
fn divided(s: (i64, i64), by: u64) -> (i64, i64)
    requires some { 0 < by }
    requires few { by < 2 ^ 63 }
    ensures { result ≡ (int_div s.0 (pos by), int_div s.1 (pos by)) }
{
    (s.0 / by as i64, s.1 / by as i64)
}

// The same slope in least terms: rise and over have no common divisor.
pub fn reduced(s: (i64, i64)) -> (i64, i64)
    requires { pos 0 <ℤ s.1 }
    ensures { result ≡ reduced_of s }
{
    divided(s, gcd(s.0.unsigned_abs(), s.1.unsigned_abs()))
}
