ghost use Rattle.std.specs.Prelude.{◌≡◌, ◌%◌, ◌<◌};
ghost use Rattle.slope.specs.Divisor.{gcd_of};

// A step of Euclid's rule: the second number, and what it leaves of the first.
fn step(pair: (u64, u64)) -> (u64, u64)
    requires { 0 < pair.1 }
    ensures { result ≡ (pair.1, pair.0 % pair.1) }
{
    (pair.1, pair.0 % pair.1)
}

// The greatest common divisor, by Euclid's rule; of 0 and b it is b.
pub fn gcd(a: u64, b: u64) -> u64
    ensures { result ≡ gcd_of a b }
{
    let mut pair = (a, b);
    while pair.1 > 0 {
        pair = step(pair);
    }
    pair.0
}
