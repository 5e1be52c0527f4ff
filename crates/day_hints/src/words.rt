// What is wrong with a word.
use crate::forms::Holds;
use crate::meant::{clock_meant, number_meant};
use crate::shown::{AsName, AsSkills, Clock};
use crew_terms::LONGEST_NAME;
use field_table::Cause;
use std::fmt::{self, Display, Formatter, Write};

/// What is wrong with a word, and what to write in its place.
#[derive(Clone, Copy)]
pub enum WordFault<'a> {
    /// No clock time; the minute that it seems to mean.
    NoClock(Option<u32>),
    /// A clock time past the last one.
    LateClock,
    /// No whole number; the number that it seems to mean.
    NoNumber {
        meant: Option<u32>,
        low: u32,
        high: u32,
    },
    /// A number out of its range.
    OutOfRange {
        low: u32,
        high: u32,
    },
    /// Nothing stands where a name is due.
    NoName,
    /// A name that is too long.
    LongName,
    /// A word with bytes that no name has.
    BadName(&'a [u8]),
    /// No list of skills.
    NoSkills(&'a [u8]),
    /// A list with a number that no skill has.
    NoSkill,
}

impl Display for WordFault<'_> {
    fn fmt<W: Write>(&self, f: &mut Formatter<W>) -> fmt::Result {
        match *self {
            WordFault::NoClock(Some(minute)) => {
                write!(f, "no clock time; write {}", Clock(minute))
            }
            WordFault::NoClock(None) => write!(f, "no clock time; write one as 07:00"),
            WordFault::LateClock => write!(f, "past 48:00, the last time of a day"),
            WordFault::NoNumber {
                meant: Some(number),
                ..
            } => write!(f, "no whole number; write {number}"),
            WordFault::NoNumber { low, high, .. } => {
                write!(f, "no whole number; write {low} to {high}")
            }
            WordFault::OutOfRange { low, high } => {
                write!(f, "out of range; write {low} to {high}")
            }
            WordFault::NoName => write!(f, "empty; write a name"),
            WordFault::LongName => write!(f, "longer than 32 letters; write a shorter name"),
            WordFault::BadName(word) => write!(f, "no name; write {}", AsName(word)),
            WordFault::NoSkills(word) => write!(f, "no list of skills; write {}", AsSkills(word)),
            WordFault::NoSkill => write!(f, "out of range; skills are 0 to 63"),
        }
    }
}

/// What is wrong with a word that is no name.
fn name_fault(word: &[u8]) -> WordFault<'_> {
    if word.is_empty() {
        WordFault::NoName
    } else if word.trim_ascii().len() > LONGEST_NAME {
        WordFault::LongName
    } else {
        WordFault::BadName(word)
    }
}

/// What is wrong with a word that is no number of this range in its spelling, or out of the range.
fn number_fault(word: &[u8], cause: Cause, low: u32, high: u32) -> WordFault<'_> {
    match (cause, number_meant(word)) {
        (Cause::Range, _) => WordFault::OutOfRange { low, high },
        (_, meant) => WordFault::NoNumber {
            meant: meant.filter(|n| low <= *n && *n <= high),
            low,
            high,
        },
    }
}

/// What is wrong with a word that is refused for this cause in a field that holds this.
pub fn word_fault(holds: Holds, cause: Cause, word: &[u8]) -> WordFault<'_> {
    match (holds, cause) {
        (Holds::Name, _) => name_fault(word),
        (Holds::Clock, Cause::Range) => WordFault::LateClock,
        (Holds::Clock, _) => WordFault::NoClock(clock_meant(word)),
        (Holds::Number { low, high }, cause) => number_fault(word, cause, low, high),
        (Holds::Skills, Cause::Range) => WordFault::NoSkill,
        (Holds::Skills, _) => WordFault::NoSkills(word),
    }
}
