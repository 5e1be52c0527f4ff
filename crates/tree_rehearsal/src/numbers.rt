// Numbers in fixed point, in parts of which 2^40 make one. What leaves the range is cut off at its ends.
ghost use Rattle.std.specs.Prelude.{◌≢◌, pos};

/// One whole.
pub(crate) const ONE: i64 = 1 << 40;

pub(crate) const WHOLE: i128 = 1 << 40;

const HALF: i128 = 1 << 39;

/// The number of the range that is nearest.
pub(crate) fn nearest(v: i128) -> i64 {
    v.max(i64::MIN as i128).min(i64::MAX as i128) as i64
}

/// The product, in parts of 2^-80.
pub(crate) fn wide(a: i64, b: i64) -> i128 {
    i128::from(a) * i128::from(b)
}

/// The number of the range that is nearest to one in parts of 2^-80.
pub(crate) fn rounded(v: i128) -> i64 {
    nearest(v.saturating_add(HALF) / WHOLE)
}

/// The product, rounded.
pub(crate) fn product(a: i64, b: i64) -> i64 {
    rounded(wide(a, b))
}

/// The quotient, rounded.
pub(crate) fn quotient(a: i64, b: i64) -> i64
    requires { b ≢ pos 0 }
{
    nearest(i128::from(a) * WHOLE / i128::from(b))
}
