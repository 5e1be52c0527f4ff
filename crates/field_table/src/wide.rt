// Numbers of 128 bits and their canonical decimals.
ghost use Rattle.std.specs.Prelude.{◌≡◌, ◌≢◌, ◌≤◌, ◌^◌, ℕ, ℤ, FitsSigned, Some, length, take, drop, IfSome, MatchOption};
ghost use Rattle.std.specs.Int.{w128};
ghost use Rattle.std.specs.Fmt.{decimal, signed_decimal};

use itoa::Buffer;

/// The bytes that the longest decimal of 128 bits takes, with its sign.
pub const WIDE_ROOM: usize = 40;

/// The number up to `most` whose decimal the digits are, if they are one's.
fn value_up_to(digits: &[u8], most: u128) -> Option<u128>
    requires { most ≤ 2 ^ 127 }
    ensures is { (n : ℕ) → n ≤ most → digits.now ≡ decimal n → result ≡ Some n }
    ensures small { IfSome result (λ n. n ≤ most) }
{
    let mut n = 0u128;
    for b in digits {
        if !b.is_ascii_digit() || n > most / 10 {
            return None;
        }
        n = 10 * n + (*b - b'0') as u128;
    }
    if n > most {
        return None;
    }
    Some(n)
}

/// The number whose canonical decimal the bytes are, if they are one's.
fn value_of(bytes: &[u8]) -> Option<i128>
    ensures { (z : ℤ) → FitsSigned w128 z → bytes.now ≡ signed_decimal z → result ≡ Some z }
{
    if bytes.is_empty() {
        return None;
    }
    if bytes[0] != b'-' {
        return Some(value_up_to(bytes, i128::MAX as u128)? as i128);
    }
    let n = value_up_to(&bytes[1..], 1 << 127)?;
    if n == 0 {
        return None;
    }
    Some(-((n - 1) as i128) - 1)
}

/// The number whose canonical decimal the bytes are: `0`, or digits that don't begin with 0, after `-` where the number
/// is below 0. None exactly where they are the canonical decimal of no i128.
pub fn read_wide(bytes: &[u8]) -> Option<i128>
    ensures exact { MatchOption result ((z : ℤ) → FitsSigned w128 z → bytes.now ≢ signed_decimal z)
        (λ z. bytes.now ≡ signed_decimal z) }
    ensures back { (z : ℤ) → FitsSigned w128 z → bytes.now ≡ signed_decimal z → result ≡ Some z }
{
    let value = value_of(bytes)?;
    let mut text = [0; WIDE_ROOM];
    let count = write_wide(value, &mut text);
    if &text[..count] == bytes {
        Some(value)
    } else {
        None
    }
}

/// Writes the canonical decimal of a number into the first bytes, and gives how many these are. `read_wide` reads them
/// as this number.
pub fn write_wide(n: i128, out: &mut [u8; WIDE_ROOM]) -> usize
    ensures written { take result out.new ≡ signed_decimal n }
    ensures length { result ≡ length (signed_decimal n) }
    ensures short { result ≤ 40 }
    ensures rest { drop result out.new ≡ drop result out.old }
{
    let mut buffer = Buffer::new();
    let text = buffer.format(n).as_bytes();
    out[..text.len()].copy_from_slice(text);
    text.len()
}
