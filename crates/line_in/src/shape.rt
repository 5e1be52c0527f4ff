// The first word of a line, and how many words it has.
ghost use Rattle.std.specs.Prelude.{◌≡◌, ◌≢◌, ◌<◌, [], length, slice_index_or, MatchBool};
ghost use Rattle.std.specs.Fmt.{decimal};
ghost use Rattle.dossier_terms.specs.Rules.{IsShape, IsShapeFrom, Begins};
ghost use Rattle.dossier_terms.specs.Ranges.{IsPairs, BeginsAt};
ghost use Rattle.line_in.specs.Fields.{IsRowOf};

use field_table::{LineWords, Words};

/// Whether two short texts are the same, byte by byte.
pub fn is_same(word: &[u8], text: &[u8]) -> bool
    ensures { MatchBool result (word.now ≡ text.now) (word.now ≢ text.now) }
{
    if word.len() != text.len() {
        return false;
    }
    for (i, b) in word.iter().enumerate() {
        if *b != text[i] {
            return false;
        }
    }
    true
}

/// Whether the word with this number is the text.
pub fn is_word(words: &LineWords<'_>, n: usize, text: &[u8]) -> bool
    requires { n < length words.now }
    ensures { MatchBool result (slice_index_or words.now n [] ≡ text.now)
        (slice_index_or words.now n [] ≢ text.now) }
{
    is_same(words.word(n), text)
}

/// Whether the word with this number is the decimal of the number.
fn is_number(words: &LineWords<'_>, n: usize, number: u32) -> bool
    requires { n < length words.now }
    ensures { MatchBool result (slice_index_or words.now n [] ≡ decimal number)
        (slice_index_or words.now n [] ≢ decimal number) }
{
    let Some(z) = words.number(n) else {
        return false;
    };
    z == number as i64
}

/// Whether the line begins with the word.
fn begins(words: &LineWords<'_>, first: &[u8]) -> bool
    ensures { MatchBool result (Begins first.now words.now) (Begins first.now words.now → ⊥) }
{
    if words.count() == 0 {
        return false;
    }
    is_word(words, 0, first)
}

/// Whether the line is the word and so many words after it.
pub fn has_shape(words: &LineWords<'_>, first: &[u8], after: usize) -> bool
    ensures { MatchBool result (IsShape first.now after words.now)
        (IsShape first.now after words.now → ⊥) }
{
    if !begins(words, first) {
        return false;
    }
    words.count() - 1 == after
}

/// Whether the line is the word and at least so many words after it.
pub fn has_shape_from(words: &LineWords<'_>, first: &[u8], least: usize) -> bool
    ensures { MatchBool result (IsShapeFrom first.now least words.now)
        (IsShapeFrom first.now least words.now → ⊥) }
{
    if !begins(words, first) {
        return false;
    }
    words.count() - 1 >= least
}

/// Whether the line is the word, one word more, and one or more pairs of words.
pub fn has_pairs(words: &LineWords<'_>, first: &[u8]) -> bool
    ensures { MatchBool result (Begins first.now words.now × IsPairs words.now)
        (Begins first.now words.now × IsPairs words.now → ⊥) }
{
    if !begins(words, first) {
        return false;
    }
    let count = words.count();
    if count < 4 {
        return false;
    }
    count % 2 == 0
}

/// Whether the line is the word, the task's number, and so many words after these.
pub fn has_row(words: &LineWords<'_>, first: &[u8], task: u32, after: u32) -> bool
    ensures { MatchBool result (IsRowOf first.now task after words.now)
        (IsRowOf first.now task after words.now → ⊥) }
{
    if !has_shape(words, first, after as usize + 1) {
        return false;
    }
    is_number(words, 1, task)
}

/// Whether the line is the word, the task's number, and one or more pairs of words.
pub fn has_pairs_at(words: &LineWords<'_>, first: &[u8], task: u32) -> bool
    ensures { MatchBool result (BeginsAt first.now task words.now × IsPairs words.now)
        (BeginsAt first.now task words.now × IsPairs words.now → ⊥) }
{
    if !has_pairs(words, first) {
        return false;
    }
    is_number(words, 1, task)
}
