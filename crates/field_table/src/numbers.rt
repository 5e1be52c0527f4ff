// Numbers and their canonical decimals.
ghost use Rattle.std.specs.Prelude.{suc, negsuc, ◌≡◌, ◌≢◌, ◌≤◌, ◌<◌, ◌^◌, ◌↔◌, ℕ, ℤ, FitsSigned, Some, length, take, drop, slice_index, IfSome, MatchOption, IsTrue};
ghost use Rattle.std.specs.Int.{w64};
ghost use Rattle.std.specs.Fmt.{decimal, signed_decimal};
ghost use Rattle.field_table.specs.Digits.{IsFrontNumber};

use itoa::Buffer;

/// The most digits whose number is read without a look at its size.
const SHORT: usize = 18;

/// Digits at the front of some bytes: how many they are, and the number that they are.
#[derive(Clone, Copy)]
pub(crate) struct Digits {
    pub(crate) count: usize,
    pub(crate) value: u64,
}

/// Whether so many digits begin with a 0 that is not all of them.
#[inline(always)]
fn has_leading_zero(bytes: &[u8], count: usize) -> bool
    requires { count ≤ length bytes.now }
    ensures { IsTrue result ↔ ((1 < count) × (slice_index bytes.now 0 ≡ 48)) }
{
    count > 1 && bytes[0] == b'0'
}

/// The number of at most 18 digits at the front, and how many these are, where a space or the end follows its decimal.
// Each word of a line begins here: the loop is of a known length, which the compiler unrolls, and stands in its caller.
#[inline(always)]
pub(crate) fn short_number(bytes: &[u8]) -> Option<Digits>
    ensures { IfSome result (λ front. IsFrontNumber bytes.now front) }
{
    if bytes.is_empty() || !bytes[0].is_ascii_digit() {
        return None;
    }
    let mut value = 0u64;
    for count in 0..SHORT + 1 {
        if count == bytes.len() || bytes[count] == b' ' {
            if has_leading_zero(bytes, count) {
                return None;
            }
            return Some(Digits { count, value });
        }
        if !bytes[count].is_ascii_digit() {
            return None;
        }
        value = 10 * value + (bytes[count] - b'0') as u64;
    }
    None
}

/// The same, of bytes that are more than these digits may be: no end is looked for.
// It stands in its caller as that does.
#[inline(always)]
pub(crate) fn number_within(bytes: &[u8]) -> Option<Digits>
    requires { 18 < length bytes.now }
    ensures { IfSome result (λ front. IsFrontNumber bytes.now front) }
{
    let mut value = 0u64;
    for count in 0..SHORT + 1 {
        let b = bytes[count];
        if !b.is_ascii_digit() {
            if b != b' ' || count == 0 {
                return None;
            }
            if has_leading_zero(bytes, count) {
                return None;
            }
            return Some(Digits { count, value });
        }
        value = 10 * value + (b - b'0') as u64;
    }
    None
}

/// The number up to `most` whose decimal the digits are, which don't begin with 0 unless they are one.
fn read_long(bytes: &[u8], most: u64) -> Option<u64>
    requires most { most ≤ 2 ^ 63 }
    requires some { 0 < length bytes.now }
    requires plain { slice_index bytes.now 0 ≡ 48 → length bytes.now ≡ 1 }
    ensures { MatchOption result ((n : ℕ) → n ≤ most → bytes.now ≢ decimal n)
        (λ n. (n ≤ most) × (bytes.now ≡ decimal n)) }
{
    let mut n = 0u64;
    for b in bytes {
        if !b.is_ascii_digit() {
            return None;
        }
        let more = 10 * n as u128 + (*b - b'0') as u128;
        if more > most as u128 {
            return None;
        }
        n = more as u64;
    }
    Some(n)
}

/// The number up to `most` whose decimal the bytes are.
fn read_digits(bytes: &[u8], most: u64) -> Option<u64>
    requires least { 10 ^ 18 ≤ most }
    requires most { most ≤ 2 ^ 63 }
    ensures { MatchOption result ((n : ℕ) → n ≤ most → bytes.now ≢ decimal n)
        (λ n. (n ≤ most) × (bytes.now ≡ decimal n)) }
{
    if bytes.is_empty() {
        return None;
    }
    if bytes[0] == b'0' && bytes.len() > 1 {
        return None;
    }
    if let Some(front) = short_number(bytes)
        && front.count == bytes.len()
    {
        return Some(front.value);
    }
    read_long(bytes, most)
}

/// The number below 0 whose decimal is `-` and these bytes.
fn read_negative(bytes: &[u8]) -> Option<i64>
    ensures { MatchOption result ((n : ℕ) → n < 2 ^ 63 → bytes.now ≢ decimal (suc n))
        (λ z. (n : ℕ) × (n < 2 ^ 63) × (z ≡ negsuc n) × (bytes.now ≡ decimal (suc n))) }
{
    let n = read_digits(bytes, 1 << 63)?;
    if n == 0 {
        return None;
    }
    Some(-((n - 1) as i64) - 1)
}

/// The number whose canonical decimal the bytes are: `0`, or digits that don't begin with 0, after `-`
/// where the number is below 0. None exactly where they are the canonical decimal of no i64.
pub fn read_number(bytes: &[u8]) -> Option<i64>
    ensures exact { MatchOption result ((n : ℤ) → FitsSigned w64 n → bytes.now ≢ signed_decimal n)
        (λ n. bytes.now ≡ signed_decimal n) }
    ensures back { (n : ℤ) → FitsSigned w64 n → bytes.now ≡ signed_decimal n → result ≡ Some n }
{
    if bytes.is_empty() {
        return None;
    }
    if bytes[0] == b'-' {
        return read_negative(&bytes[1..]);
    }
    Some(read_digits(bytes, i64::MAX as u64)? as i64)
}

/// Writes the canonical decimal of a number into the first bytes, and gives how many these are. `read_number`
/// reads them as this number.
pub fn write_number(n: i64, out: &mut [u8; 20]) -> usize
    ensures written { take result out.new ≡ signed_decimal n }
    ensures length { result ≡ length (signed_decimal n) }
    ensures short { result ≤ 20 }
    ensures rest { drop result out.new ≡ drop result out.old }
{
    let mut buffer = Buffer::new();
    let text = buffer.format(n).as_bytes();
    out[..text.len()].copy_from_slice(text);
    text.len()
}
