// Factors of numbers, and exact quotients by them.

ghost use Rattle.std.specs.Prelude.{◌≡◌, ◌<◌, ◌^◌, ◌*ℤ◌, pos, unsigned_abs, IfSome};
ghost use Rattle.std.specs.Int.{IsGcd, ◌∣◌};

use crew_num::gcd_of;

/// The lower 64 bits.
const LOW: u128 = u64::MAX as u128;

/// A factor, and the inverse of its odd part modulo 2^64, by which most quotients are found without a division (T. Jebelean,
/// An algorithm for exact division, 1993). Each quotient is tested, so nothing rests on the inverse.
#[derive(Clone, Copy)]
pub struct Factor {
    pub value: u128,
    shift: u32,
    inverse: u64,
    ghost few: { shift < 64 },
}

/// The inverse of an odd number modulo 2^64: each round doubles the bits that are right.
fn inverse_of(odd: u64) -> u64 {
    let mut inverse = odd;
    for _ in 0..5 {
        inverse = inverse.wrapping_mul(2u64.wrapping_sub(odd.wrapping_mul(inverse)));
    }
    inverse
}

/// The product of two numbers of 64 bits.
fn short_product(a: i64, b: i64) -> i128
    ensures { result ≡ a *ℤ b }
{
    (a as i128) * (b as i128)
}

impl Factor {
    /// This factor.
    pub fn of(value: u128) -> Factor
        ensures { result.value ≡ value }
    {
        let shift = value.trailing_zeros().min(63);
        Factor {
            value,
            shift,
            inverse: inverse_of(((value >> shift) & LOW) as u64),
        }
    }

    /// The number over the factor, where both have 64 bits, the quotient has no rest.
    fn short_quotient(&self, a: i128) -> Option<i128>
        ensures { IfSome result (λ q. pos self.now.value *ℤ q ≡ a) }
    {
        if self.value > i64::MAX as u128 {
            return None;
        }
        let low = ((a.cast_unsigned() >> self.shift) & LOW) as u64;
        let quotient = low.wrapping_mul(self.inverse).cast_signed();
        if short_product(self.value as i64, quotient) == a {
            Some(quotient as i128)
        } else {
            None
        }
    }

    /// The greatest common factor of this one and the number.
    pub fn with(self, a: i128) -> Factor
        ensures { IsGcd self.value (unsigned_abs a) result.value }
    {
        if self.short_quotient(a).is_some() {
            return self;
        }
        Factor::of(gcd_of(self.value, a.unsigned_abs()))
    }

    /// A number that has the factor, over it.
    pub fn quotient(&self, a: i128) -> i128
        requires some { 0 < self.now.value }
        requires fits { self.now.value < 2 ^ 127 }
        requires factor { self.now.value ∣ unsigned_abs a }
        ensures { pos self.now.value *ℤ result ≡ a }
    {
        if let Some(quotient) = self.short_quotient(a) {
            return quotient;
        }
        a / self.value as i128
    }
}
