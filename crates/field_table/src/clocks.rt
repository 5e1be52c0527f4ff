// Minutes as a clock shows them.
ghost use Rattle.std.specs.Prelude.{◌≡◌, ◌≢◌, ◌≤◌, ◌<◌, ◌+◌, [], ◌∷◌, ℕ, pos, Some, MatchOption};
ghost use Rattle.field_table.specs.Clocks.{two_digits, clock_text};

use crew_terms::LAST_MINUTE;

/// The number below 100 that two digits are.
fn read_two(tens: u8, ones: u8) -> Option<u8>
    ensures { MatchOption result ((n : ℕ) → n < 100 → tens ∷ ones ∷ [] ≢ two_digits n)
        (λ n. (n < 100) × (tens ∷ ones ∷ [] ≡ two_digits n)) }
{
    if !tens.is_ascii_digit() || !ones.is_ascii_digit() {
        return None;
    }
    Some(10 * (tens - b'0') + (ones - b'0'))
}

/// The minutes that a clock shows: two digits, a colon, and two digits that are at most 59, so 0 to 5999.
/// None exactly where the bytes are no such text.
pub fn read_clock(bytes: &[u8]) -> Option<i64>
    ensures exact { MatchOption result ((n : ℕ) → n < 6000 → bytes.now ≢ clock_text n)
        (λ z. (n : ℕ) × (n < 6000) × (z ≡ pos n) × (bytes.now ≡ clock_text n)) }
    ensures back { (n : ℕ) → n < 6000 → bytes.now ≡ clock_text n → result ≡ Some (pos n) }
{
    let [tens, ones, b':', last_tens, last_ones] = bytes else {
        return None;
    };
    let hours = read_two(*tens, *ones)?;
    let minutes = read_two(*last_tens, *last_ones)?;
    if minutes > 59 {
        return None;
    }
    let minute = 60 * hours as u16 + minutes as u16;
    Some(minute as i64)
}

fn digit(n: u32) -> u8
    requires { n < 10 }
    ensures { result ≡ 48 + n }
{
    b'0' + n as u8
}

/// Writes a minute up to `LAST_MINUTE` as a clock shows it. `read_clock` reads it as this minute.
pub fn write_clock(n: u32, out: &mut [u8; 5])
    requires { n ≤ LAST_MINUTE }
    ensures { out.new ≡ clock_text n }
{
    let hours = n / 60;
    let minutes = n % 60;
    *out = [
        digit(hours / 10),
        digit(hours % 10),
        b':',
        digit(minutes / 10),
        digit(minutes % 10),
    ];
}
