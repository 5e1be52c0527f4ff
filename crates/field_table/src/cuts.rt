// The words of a line.
ghost use Rattle.std.specs.Prelude.{◌≡◌, ◌≢◌, ◌≤◌, ◌<◌, ◌+◌, [], List, ℕ, ℤ, FitsSigned, None, Some, length, take, drop, slice_get, slice_index, slice_index_or, slice_range, vec_capacity, vec_len, All, MatchOption, IsFalse};
ghost use Rattle.std.specs.Int.{w64};
ghost use Rattle.std.specs.Fmt.{signed_decimal};
ghost use Rattle.crew_terms.specs.Words.{words_of};
ghost use Rattle.crew_terms.specs.declared.TheConstants.{LONGEST_LINE};
ghost use Rattle.field_table.specs.Digits.{IsFrontNumber};
ghost use Rattle.field_table.specs.Pieces.{piece_of, pieces_of, IsCutOf, IsCutUpTo, IsNumberOf, IsWordAt};
ghost use Rattle.field_table.specs.declared.cuts.TheConstants.{FAR};

use crate::numbers::{Digits, number_within, read_number, short_number};
use crew_terms::LONGEST_LINE;
use std::alloc::{AllocError, Global};
use std::marker::Model;

/// A list of words.
pub trait Words {
    /// The words, in order.
    ghost words: { Self → List (List ℕ) };

    /// How many words there are.
    fn count(&self) -> usize
        ensures { result ≡ length (words self.now) };

    /// The word with this number, from 0.
    fn word(&self, n: usize) -> &[u8]
        requires { n < length (words self.now) }
        ensures { slice_get (words self.now) n ≡ Some result.now };

    /// The number whose canonical decimal the word with this number is; None exactly where it is that of no i64.
    fn number(&self, n: usize) -> Option<i64>
        requires { n < length (words self.now) }
        ensures exact { MatchOption result
            ((z : ℤ) → FitsSigned w64 z → slice_index_or (words self.now) n [] ≢ signed_decimal z)
            (λ z. slice_index_or (words self.now) n [] ≡ signed_decimal z) };
}

/// A word of a line: the place of its first byte, the place after its last, and the number that it spells, if any.
#[derive(Clone, Copy)]
struct Cut {
    from: usize,
    until: usize,
    number: Option<i64>,
}

/// A cut that no line has made yet.
const NO_WORD: Cut = Cut {
    from: 0,
    until: 0,
    number: None,
};

/// So many bytes of a line are more than a short number has digits, and few lines but those of many numbers have as many.
const FAR: usize = 64;

/// The words of one line, which borrow the line and the room for its cuts.
#[derive(Drop)]
pub struct LineWords<'a> {
    line: &'a [u8],
    cuts: &'a [Cut],
}

impl<'a> Model for LineWords<'a> {
    ghost use Rattle.std.specs.Prelude.{List, ℕ};

    ghost Value = { List (List ℕ) };

    ghost use Rattle.field_table.specs.Cut.{cut_words, AreCuts};

    ghost view = { cut_words };

    ghost invariant = { AreCuts };
}

impl<'a> Words for LineWords<'a> {
    ghost words = { λ w. w };

    fn count(&self) -> usize {
        self.cuts.len()
    }

    fn word(&self, n: usize) -> &[u8] {
        let cuts = self.cuts;
        let cut = cuts[n];
        &self.line[cut.from..cut.until]
    }

    fn number(&self, n: usize) -> Option<i64> {
        let cuts = self.cuts;
        cuts[n].number
    }
}

/// Room for the words of one line. The cuts that were once made are kept, and written over.
#[derive(Drop)]
pub struct Cuts {
    cuts: Vec<Cut>,
    ghost room: { LONGEST_LINE < vec_capacity cuts },
}

impl Cuts {
    /// Takes room for the words of any line; AllocError where there is none.
    pub fn new(alloc: Global) -> Result<Cuts, AllocError> {
        Ok(Cuts {
            cuts: Vec::with_capacity(alloc, LONGEST_LINE + 1)?,
        })
    }

    /// Cuts a line into the room that was taken, and gives how many words it has.
    fn fill(&mut self, line: &[u8]) -> usize
        requires { length line.now ≤ LONGEST_LINE }
        ensures count { result ≤ vec_len self.new.cuts }
        ensures words { pieces_of line.now (take result self.new.cuts.items) ≡ words_of line.now }
        ensures cuts { All (IsCutOf line.now) (take result self.new.cuts.items) }
    {
        make_room(&mut self.cuts, line.len());
        cut_line(&mut self.cuts, line)
    }

    /// Cuts a line of at most 131,072 bytes at each space, and reads each word's number; it takes no memory.
    pub fn split<'a>(&'a mut self, line: &'a [u8]) -> LineWords<'a>
        requires { length line.now ≤ LONGEST_LINE }
        ensures { result ≡ words_of line.now }
    {
        let count = self.fill(line);
        LineWords {
            line,
            cuts: &self.cuts[..count],
        }
    }
}

/// Makes cuts that can be written over, until there is one for each word that a line of this length can have.
fn make_room(cuts: &mut Vec<Cut>, length: usize)
    requires room { LONGEST_LINE < vec_capacity cuts.old }
    requires short { length ≤ LONGEST_LINE }
    ensures count { length < vec_len cuts.new }
    ensures room { LONGEST_LINE < vec_capacity cuts.new }
{
    while cuts.len() <= length {
        cuts.push(NO_WORD).unwrap();
    }
}

/// The first place from this one on at which a space stands, or the end of the line.
fn space_from(line: &[u8], from: usize) -> usize
    requires { from ≤ length line.now }
    ensures order { from ≤ result }
    ensures within { result ≤ length line.now }
    ensures whole { All (λ b. b ≢ 32) (slice_range line.now from result) }
    ensures end { result < length line.now → slice_index line.now result ≡ 32 }
{
    let mut until = from;
    while until < line.len() && line[until] != b' ' {
        until += 1;
    }
    until
}

/// Whether a word begins as a number does: with a digit or `-`.
fn begins_as_number(word: &[u8]) -> bool
    ensures { IsFalse result → IsNumberOf None word.now }
{
    if word.is_empty() {
        return false;
    }
    word[0] == b'-' || word[0].is_ascii_digit()
}

/// Writes the cut of a word that begins as a number does, from one place to before another.
// Few words are read here, so what it takes is not to be set up for the others.
#[inline(never)]
fn cut_number(cut: &mut Cut, line: &[u8], from: usize, until: usize) -> usize
    requires order { from ≤ until }
    requires within { until ≤ length line.now }
    ensures from { cut.new.from ≡ from }
    ensures until { cut.new.until ≡ until }
    ensures number { IsNumberOf cut.new.number (slice_range line.now from until) }
    ensures end { result ≡ until }
{
    *cut = Cut {
        from,
        until,
        number: read_number(&line[from..until]),
    };
    until
}

/// Writes the cut of the word that begins at this place, whatever it is, and gives the place after its last byte.
// Into its room, and never inlined: a cut that is given back would go over the stack, that of a short number too.
#[inline(never)]
fn cut_any(cut: &mut Cut, line: &[u8], from: usize) -> usize
    requires { from ≤ length line.now }
    ensures word { IsWordAt line.now from cut.new }
    ensures until { result ≡ cut.new.until }
{
    let until = space_from(line, from);
    if begins_as_number(&line[from..until]) {
        return cut_number(cut, line, from, until);
    }
    *cut = Cut {
        from,
        until,
        number: None,
    };
    until
}

/// Writes the cut of the digits that stand at this place, and gives the place after the last of them.
#[inline(always)]
fn cut_digits(cut: &mut Cut, line: &[u8], from: usize, digits: Digits) -> usize
    requires from { from ≤ length line.now }
    requires digits { IsFrontNumber (drop from line.now) digits }
    ensures begins { cut.new.from ≡ from }
    ensures is_cut { IsCutOf line.now cut.new }
    ensures whole { All (λ b. b ≢ 32) (piece_of line.now cut.new) }
    ensures ended { cut.new.until < length line.now → slice_index line.now cut.new.until ≡ 32 }
    ensures until { result ≡ cut.new.until }
{
    let until = from + digits.count;
    *cut = Cut {
        from,
        until,
        number: Some(digits.value as i64),
    };
    until
}

/// Writes the cut of the word that begins at this place, and gives the place after its last byte. A short number is read
/// in the same pass.
#[inline(always)]
fn cut_word(cut: &mut Cut, line: &[u8], from: usize) -> usize
    requires { from ≤ length line.now }
    ensures word { IsWordAt line.now from cut.new }
    ensures until { result ≡ cut.new.until }
{
    match short_number(&line[from..]) {
        Some(digits) => cut_digits(cut, line, from, digits),
        None => cut_any(cut, line, from),
    }
}

/// The same, where so many bytes of the line are left that a short number ends before it does.
#[inline(always)]
fn cut_far_word(cut: &mut Cut, line: &[u8], from: usize) -> usize
    requires { from + FAR ≤ length line.now }
    ensures word { IsWordAt line.now from cut.new }
    ensures until { result ≡ cut.new.until }
{
    match number_within(&line[from..]) {
        Some(digits) => cut_digits(cut, line, from, digits),
        None => cut_any(cut, line, from),
    }
}

/// Cuts a long line until few of its bytes are left, and gives how many words were cut, and where the next one begins.
// Most of an input is long lines of numbers, so their loop stands by itself.
#[inline(never)]
fn cut_front(cuts: &mut [Cut], line: &[u8]) -> (usize, usize)
    requires room { length line.now < length cuts.old }
    requires short { length line.now ≤ LONGEST_LINE }
    ensures { IsCutUpTo line.now cuts.new result.0 result.1 }
{
    let mut from = 0;
    let mut count = 0;
    while from + FAR <= line.len() {
        from = cut_far_word(&mut cuts[count], line, from) + 1;
        count += 1;
    }
    (count, from)
}

/// Cuts a line at each space, and gives how many words it has.
fn cut_line(cuts: &mut [Cut], line: &[u8]) -> usize
    requires room { length line.now < length cuts.old }
    requires short { length line.now ≤ LONGEST_LINE }
    ensures count { result ≤ length cuts.new }
    ensures words { pieces_of line.now (take result cuts.new) ≡ words_of line.now }
    ensures cuts { All (IsCutOf line.now) (take result cuts.new) }
{
    let (mut count, mut from) = (0, 0);
    if line.len() >= FAR {
        (count, from) = cut_front(cuts, line);
    }
    while from <= line.len() {
        from = cut_word(&mut cuts[count], line, from) + 1;
        count += 1;
    }
    count
}
