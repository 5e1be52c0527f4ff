// Numbers of 128 bits in the words of a line.
ghost use Rattle.std.specs.Prelude.{◌≡◌, ◌≢◌, ◌≤◌, ◌<◌, ◌^◌, [], ℕ, ℤ, FitsSigned, List, length, drop, slice_index_or, MatchBool, MatchOption, MatchResult};
ghost use Rattle.std.specs.Int.{w128};
ghost use Rattle.std.specs.Fmt.{decimal, signed_decimal};
ghost use Rattle.line_in.specs.Fields.{SpellBelow};

use crate::faults::LineFault;
use field_table::{LineWords, Words, read_wide};
use std::marker::Model;

/// The numbers at the end of a line, in its order, none below 0 and each of 127 bits; it borrows the line.
#[derive(Drop)]
pub struct WideNumbers<'a> {
    words: LineWords<'a>,
    from: usize,
    len: usize,
}

impl<'a> Model for WideNumbers<'a> {
    ghost use Rattle.std.specs.Prelude.{List, ℕ};

    ghost Value = { List ℕ };

    ghost use Rattle.line_in.specs.WideNumbers.{wides_of, AreWides};

    ghost view = { wides_of };

    ghost invariant = { AreWides };
}

/// The number from 0 on of 127 bits whose decimal the word at a place is.
fn natural_at(words: &LineWords<'_>, n: usize) -> Option<u128>
    requires { n < length words.now }
    ensures { MatchOption result ((k : ℕ) → k < 2 ^ 127 → slice_index_or words.now n [] ≢ decimal k)
        (λ k. (k < 2 ^ 127) × (slice_index_or words.now n [] ≡ decimal k)) }
{
    let Some(z) = read_wide(words.word(n)) else {
        return None;
    };
    if z < 0 {
        return None;
    }
    Some(z.unsigned_abs())
}

/// Reads the number from `low` on and below `past` of the word at a place.
pub fn read_natural(
    words: &LineWords<'_>,
    n: usize,
    low: u128,
    past: u128,
) -> Result<u128, LineFault>
    requires place { n < length words.now }
    requires past { past ≤ 2 ^ 127 }
    ensures { MatchResult result
        (λ k. (low ≤ k) × (k < past) × (slice_index_or words.now n [] ≡ decimal k))
        (λ fault. (fault ≡ LineFault.Number)
        × ((k : ℕ) → low ≤ k → k < past → slice_index_or words.now n [] ≢ decimal k)) }
{
    let Some(k) = natural_at(words, n) else {
        return Err(LineFault::Number);
    };
    if k < low || k >= past {
        return Err(LineFault::Number);
    }
    Ok(k)
}

/// Reads the number of 128 bits, with a sign, of the word at a place.
pub fn read_signed(words: &LineWords<'_>, n: usize) -> Result<i128, LineFault>
    requires { n < length words.now }
    ensures { MatchResult result
        (λ z. FitsSigned w128 z × (slice_index_or words.now n [] ≡ signed_decimal z))
        (λ fault. (fault ≡ LineFault.Number)
        × ((z : ℤ) → FitsSigned w128 z → slice_index_or words.now n [] ≢ signed_decimal z)) }
{
    let Some(z) = read_wide(words.word(n)) else {
        return Err(LineFault::Number);
    };
    Ok(z)
}

/// Whether the word at a place is the decimal of a number below `past`.
fn is_natural(words: &LineWords<'_>, n: usize, past: u128) -> bool
    requires place { n < length words.now }
    requires past { past ≤ 2 ^ 127 }
    ensures { MatchBool result ((k : ℕ) × (k < past) × (slice_index_or words.now n [] ≡ decimal k))
        ((k : ℕ) → k < past → slice_index_or words.now n [] ≢ decimal k) }
{
    read_natural(words, n, 0, past).is_ok()
}

/// Whether the words from a place on are the decimals of numbers below `past`.
fn are_naturals(words: &LineWords<'_>, from: usize, past: u128) -> bool
    requires place { from ≤ length words.now }
    requires past { past ≤ 2 ^ 127 }
    ensures { MatchBool result ((ks : List ℕ) × SpellBelow past ks (drop from words.now))
        ((ks : List ℕ) → SpellBelow past ks (drop from words.now) → ⊥) }
{
    for n in from..words.count() {
        if !is_natural(words, n, past) {
            return false;
        }
    }
    true
}

/// The numbers of the words from a place on, each below `past`.
pub fn read_naturals<'a>(
    words: LineWords<'a>,
    from: usize,
    past: u128,
) -> Result<WideNumbers<'a>, LineFault>
    requires place { from ≤ length words }
    requires past { past ≤ 2 ^ 127 }
    ensures { MatchResult result
        (λ ks. SpellBelow past ks (drop from words.entry))
        (λ fault. (fault ≡ LineFault.Number)
        × ((ks : List ℕ) → SpellBelow past ks (drop from words.entry) → ⊥)) }
{
    if !are_naturals(&words, from, past) {
        return Err(LineFault::Number);
    }
    let len = words.count() - from;
    Ok(WideNumbers { words, from, len })
}

impl<'a> WideNumbers<'a> {
    /// How many numbers there are.
    pub fn len(&self) -> usize
        ensures { result ≡ length self.now }
    {
        self.len
    }

    /// The number at the place `n`, from 0.
    pub fn get(&self, n: usize) -> u128
        requires { n < length self.now }
        ensures exact { result ≡ slice_index_or self.now n 0 }
        ensures small { result < 2 ^ 127 }
    {
        natural_at(&self.words, self.from + n).unwrap()
    }
}
