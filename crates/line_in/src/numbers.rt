// Numbers in the words of a line.
ghost use Rattle.std.specs.Prelude.{◌≡◌, ◌≢◌, ◌≤◌, ◌<◌, ◌+◌, ◌*◌, [], ℕ, ℤ, List, pos, length, drop, map, slice_index_or, MatchBool, MatchResult};
ghost use Rattle.std.specs.Fmt.{signed_decimal};
ghost use Rattle.std.specs.List.{flat_map};
ghost use Rattle.crew_terms.specs.declared.Visit.{Visit};
ghost use Rattle.dossier_terms.specs.Runs.{Run};
ghost use Rattle.line_in.specs.Fields.{IsIn, SpellIn, SpellBelow, SpellPrices, SpellVisits, SpellRuns, ArePairs, visit_numbers, run_numbers};

use crate::faults::LineFault;
use crate::ranges::{MINUTE, POTENTIAL, PRICE};
use field_table::{Field, Kind, LineWords, Words, field};
use std::marker::Model;

/// The numbers at the end of a line, in its order; it borrows the line.
#[derive(Drop)]
pub struct LineNumbers<'a> {
    words: LineWords<'a>,
    from: usize,
    len: usize,
}

impl<'a> Model for LineNumbers<'a> {
    ghost use Rattle.std.specs.Prelude.{List, ℤ};

    ghost Value = { List ℤ };

    ghost use Rattle.line_in.specs.Numbers.{numbers_of, AreLineNumbers};

    ghost view = { numbers_of };

    ghost invariant = { AreLineNumbers };
}

impl<'a> LineNumbers<'a> {
    /// How many numbers there are.
    pub fn len(&self) -> usize
        ensures { result ≡ length self.now }
    {
        self.len
    }

    /// The number at the place `n`, from 0.
    pub fn get(&self, n: usize) -> i64
        requires { n < length self.now }
        ensures { result ≡ slice_index_or self.now n (pos 0) }
    {
        self.words.number(self.from + n).unwrap()
    }
}

/// Reads the number of the word at a place, in a field's range.
// A field is a constant where its word is read; inlined, its range is too.
#[inline(always)]
pub fn read_in(words: &LineWords<'_>, n: usize, field: &Field) -> Result<i64, LineFault>
    requires { n < length words.now }
    ensures { MatchResult result
        (λ z. IsIn field.now z × (slice_index_or words.now n [] ≡ signed_decimal z))
        (λ fault. (fault ≡ LineFault.Number)
        × ((z : ℤ) → IsIn field.now z → slice_index_or words.now n [] ≢ signed_decimal z)) }
{
    let Some(z) = words.number(n) else {
        return Err(LineFault::Number);
    };
    if z < field.low || z > field.high {
        return Err(LineFault::Number);
    }
    Ok(z)
}

/// Whether the word at a place is the decimal of a number in a field's range.
fn is_in(words: &LineWords<'_>, n: usize, field: &Field) -> bool
    requires { n < length words.now }
    ensures { MatchBool result
        ((z : ℤ) × IsIn field.now z × (slice_index_or words.now n [] ≡ signed_decimal z))
        ((z : ℤ) → IsIn field.now z → slice_index_or words.now n [] ≢ signed_decimal z) }
{
    read_in(words, n, field).is_ok()
}

/// Whether the words from a place on are the decimals of numbers in a field's range.
// Most of an input is such numbers, so its loop is kept out of the readers of all kinds of lines.
#[inline(never)]
fn are_in(words: &LineWords<'_>, from: usize, field: &Field) -> bool
    requires { from ≤ length words.now }
    ensures { MatchBool result ((ns : List ℤ) × SpellIn field.now ns (drop from words.now))
        ((ns : List ℤ) → SpellIn field.now ns (drop from words.now) → ⊥) }
{
    for n in from..words.count() {
        if !is_in(words, n, field) {
            return false;
        }
    }
    true
}

/// The numbers of the words from a place on, each in a field's range.
pub fn read_rest<'a>(
    words: LineWords<'a>,
    from: usize,
    field: Field,
) -> Result<LineNumbers<'a>, LineFault>
    requires numbers { field.kind ≡ Kind.Number }
    requires within { from ≤ length words }
    ensures { MatchResult result
        (λ rest. SpellIn field rest (drop from words.entry))
        (λ fault. (fault ≡ LineFault.Number)
        × ((ns : List ℤ) → SpellIn field ns (drop from words.entry) → ⊥)) }
{
    if !are_in(&words, from, &field) {
        return Err(LineFault::Number);
    }
    let len = words.count() - from;
    Ok(LineNumbers { words, from, len })
}

/// The prices of the words from a place on, in 1/D of a task.
pub fn read_prices<'a>(words: LineWords<'a>, from: usize) -> Result<LineNumbers<'a>, LineFault>
    requires { from ≤ length words }
    ensures { MatchResult result
        (λ prices. SpellPrices prices (drop from words.entry))
        (λ fault. (fault ≡ LineFault.Number)
        × ((ns : List ℤ) → SpellPrices ns (drop from words.entry) → ⊥)) }
{
    read_rest(words, from, PRICE)
}

/// The numbers of the words from a place on, each below `past`.
pub fn read_below<'a>(
    words: LineWords<'a>,
    from: usize,
    past: u32,
) -> Result<LineNumbers<'a>, LineFault>
    requires { from ≤ length words }
    ensures { MatchResult result
        (λ rest. (ns : List ℕ) × (rest ≡ map pos ns) × SpellBelow past ns (drop from words.entry))
        (λ fault. (fault ≡ LineFault.Number)
        × ((ns : List ℕ) → SpellBelow past ns (drop from words.entry) → ⊥)) }
{
    let last = past as i64 - 1;
    read_rest(words, from, field!(Number(0, last)))
}

/// Whether the pairs of words from a place on are the decimals of two numbers, each in its field's range.
// An input with long windows is mostly such pairs, so their loop too stands by itself.
#[inline(never)]
fn are_pairs(words: &LineWords<'_>, from: usize, first: &Field, second: &Field) -> bool
    requires pairs { (k : ℕ) × (length words.now ≡ from + 2 * k) }
    ensures { MatchBool result (ArePairs first.now second.now from words.now)
        (ArePairs first.now second.now from words.now → ⊥) }
{
    let pairs = (words.count() - from) / 2;
    for n in 0..pairs {
        if !is_in(words, from + 2 * n, first) {
            return false;
        }
        if !is_in(words, from + 2 * n + 1, second) {
            return false;
        }
    }
    true
}

/// The visits of the words from a place on, each a task below `tasks` and a minute.
pub fn read_visits<'a>(
    words: LineWords<'a>,
    from: usize,
    tasks: u32,
) -> Result<LineNumbers<'a>, LineFault>
    requires pairs { (k : ℕ) × (length words ≡ from + 2 * k) }
    ensures { MatchResult result
        (λ rest. (vs : List Visit) × (rest ≡ map pos (flat_map visit_numbers vs))
        × SpellVisits tasks vs (drop from words.entry))
        (λ fault. (fault ≡ LineFault.Number)
        × ((vs : List Visit) → SpellVisits tasks vs (drop from words.entry) → ⊥)) }
{
    let last = tasks as i64 - 1;
    if !are_pairs(&words, from, &field!(Number(0, last)), &MINUTE) {
        return Err(LineFault::Number);
    }
    let len = words.count() - from;
    Ok(LineNumbers { words, from, len })
}

/// The runs of the words from a place on, each a minute and a potential.
pub fn read_runs<'a>(words: LineWords<'a>, from: usize) -> Result<LineNumbers<'a>, LineFault>
    requires pairs { (k : ℕ) × (length words ≡ from + 2 * k) }
    ensures { MatchResult result
        (λ rest. (runs : List Run) × (rest ≡ flat_map run_numbers runs)
        × SpellRuns runs (drop from words.entry))
        (λ fault. (fault ≡ LineFault.Number)
        × ((runs : List Run) → SpellRuns runs (drop from words.entry) → ⊥)) }
{
    if !are_pairs(&words, from, &MINUTE, &POTENTIAL) {
        return Err(LineFault::Number);
    }
    let len = words.count() - from;
    Ok(LineNumbers { words, from, len })
}
