// Common divisors.
ghost use Rattle.std.specs.Prelude.{unsigned_abs};
ghost use Rattle.std.specs.Int.{IsGcd};

/// The greatest common divisor of the magnitudes: it divides both, and whatever divides both divides it.
/// So it is 0 for two zeros.
pub fn gcd(a: i128, b: i128) -> u128
    ensures { IsGcd (unsigned_abs a) (unsigned_abs b) result }
{
    gcd_of(a.unsigned_abs(), b.unsigned_abs())
}

/// The greatest common divisor of two numbers without a sign.
pub fn gcd_of(a: u128, b: u128) -> u128
    ensures { IsGcd a b result }
{
    let mut x = a;
    let mut y = b;
    while y > u64::MAX as u128 {
        let rest = x % y;
        x = y;
        y = rest;
    }
    if y == 0 {
        return x;
    }
    short_gcd(y as u64, (x % y) as u64) as u128
}

/// The greatest common divisor of two numbers of 64 bits, which are divided faster.
fn short_gcd(a: u64, b: u64) -> u64
    ensures { IsGcd a b result }
{
    let mut x = a;
    let mut y = b;
    while y != 0 {
        let rest = x % y;
        x = y;
        y = rest;
    }
    x
}
