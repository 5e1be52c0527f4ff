// What a misspelled word seems to mean.
use crew_terms::LAST_MINUTE;
use std::str;

/// The number that the digits are.
fn number_of(digits: &[u8]) -> Option<u32> {
    str::from_utf8(digits).ok()?.parse().ok()
}

/// The hour and the minute that groups of digits are: two groups, or three with seconds; or one of three or four digits
/// that has no point, or of fewer, which is an hour.
fn hour_and_minute(word: &[u8]) -> Option<(u32, u32)> {
    let mut groups = word
        .split(|b| !b.is_ascii_digit())
        .filter(|group| !group.is_empty());
    let first = groups.next()?;
    if let Some(second) = groups.next() {
        return Some((number_of(first)?, number_of(second)?));
    }
    if first.len() <= 2 {
        return Some((number_of(first)?, 0));
    }
    let number = number_of(first)?;
    Some((number / 100, number % 100))
}

/// Whether a byte may stand in a word that means a clock time.
fn is_of_clock(b: &u8) -> bool {
    b.is_ascii_digit() || b" :.,;hHaApPmM".contains(b)
}

/// The minute that a misspelled clock time seems to mean: one with a missing zero, another point, no point, seconds, or
/// by a clock of twelve hours.
pub fn clock_meant(word: &[u8]) -> Option<u32> {
    if !word.iter().all(is_of_clock) {
        return None;
    }
    let (hour, minute) = hour_and_minute(word)?;
    let evening = word.iter().any(|b| b"pP".contains(b));
    let morning = word.iter().any(|b| b"aA".contains(b));
    let hour = match hour {
        1..12 if evening => hour + 12,
        12 if morning => 0,
        _ => hour,
    };
    if minute > 59 || hour > 48 {
        return None;
    }
    let meant = 60 * hour + minute;
    if meant <= LAST_MINUTE {
        Some(meant)
    } else {
        None
    }
}

/// The number that a misspelled one seems to mean: one with zeros in front, a plus, spaces round it, decimals that are 0, or
/// with a unit behind it.
pub fn number_meant(word: &[u8]) -> Option<u32> {
    let word = word.trim_ascii();
    let word = word.strip_prefix(b"+").unwrap_or(word);
    let mut parts = word.split(|b| !b.is_ascii_digit());
    let number = number_of(parts.next()?)?;
    if parts.all(|part| part.len() < 3 && part.iter().all(|b| *b == b'0')) {
        Some(number)
    } else {
        None
    }
}
