// The lines of the cause of a split.
ghost use Rattle.std.specs.Prelude.{◌≡◌, ◌≢◌, ◌≤◌, ◌<◌, ◌+◌, ◌^◌, ◌<ℤ◌, ℕ, pos, MatchBool, MatchOption, codes};
ghost use Rattle.crew_num.specs.declared.Op.{Op};
ghost use Rattle.dossier_terms.specs.Lines.{op_word};
ghost use Rattle.dossier_terms.specs.Ranges.{IsWhy};
ghost use Rattle.cert_format.specs.Typed.{ReadsAs, why_kind, share_kind};

use crate::kinds::{Expect, LineKind};
use crate::typed::{ShareLine, WhyLine};
use crew_num::{Op, Overflow};
use field_table::{LineWords, Words};
use line_in::LineFault;
use line_in::shape::{has_shape, is_same, is_word};
use line_in::wides::{WideNumbers, read_natural, read_naturals, read_signed};

/// One more than the most parts of which a share is one: 2^127.
const PAST_WHOLE: u128 = 1 << 127;

/// One more than the most columns of a cause: 2^63.
const PAST_COUNT: u128 = 1 << 63;

/// The operation that the word names.
fn op_of(word: &[u8]) -> Option<Op>
    ensures { MatchOption result ((op : Op) → word.now ≢ op_word op) (λ op. word.now ≡ op_word op) }
{
    if is_same(word, b"add") {
        return Some(Op::Add);
    }
    if is_same(word, b"sub") {
        return Some(Op::Sub);
    }
    if is_same(word, b"mul") {
        return Some(Op::Mul);
    }
    None
}

/// Whether the line is `why`, this kind of cause, and so many words after it.
fn is_why(words: &LineWords<'_>, kind: &[u8], after: usize) -> bool
    requires { after < 8 }
    ensures { MatchBool result (IsWhy kind.now after words.now)
        (IsWhy kind.now after words.now → ⊥) }
{
    if !has_shape(words, b"why", after + 1) {
        return false;
    }
    is_word(words, 1, kind)
}

/// Reads a line `why loose`.
fn read_loose(words: LineWords<'_>, tasks: u32) -> Result<WhyLine, LineFault>
    requires { IsWhy (codes "loose") 3 words }
    ensures { ReadsAs (Expect.Why tasks) why_kind words.entry result }
{
    let now = read_natural(&words, 2, 1, tasks as u128 + 1)?;
    let whole = read_natural(&words, 3, 1, PAST_WHOLE)?;
    let count = read_natural(&words, 4, 0, PAST_COUNT)?;
    Ok(WhyLine::Loose {
        now: now as u32,
        whole,
        count: count as u64,
    })
}

/// Reads a line `why overflow`.
fn read_overflow(words: LineWords<'_>, tasks: u32) -> Result<WhyLine, LineFault>
    requires { IsWhy (codes "overflow") 4 words }
    ensures { ReadsAs (Expect.Why tasks) why_kind words.entry result }
{
    let Some(op) = op_of(words.word(3)) else {
        return Err(LineFault::Shape);
    };
    let Ok(now) = read_natural(&words, 2, 1, tasks as u128 + 1) else {
        return Err(LineFault::Number);
    };
    let Ok(a) = read_signed(&words, 4) else {
        return Err(LineFault::Number);
    };
    let Ok(b) = read_signed(&words, 5) else {
        return Err(LineFault::Number);
    };
    Ok(WhyLine::Overflow {
        now: now as u32,
        fault: Overflow { op, a, b },
    })
}

/// Reads a line `why spent`.
fn read_spent(words: LineWords<'_>, tasks: u32) -> Result<WhyLine, LineFault>
    requires { IsWhy (codes "spent") 1 words }
    ensures { ReadsAs (Expect.Why tasks) why_kind words.entry result }
{
    let now = read_natural(&words, 2, 1, tasks as u128 + 1)?;
    Ok(WhyLine::Spent { now: now as u32 })
}

/// Reads a line `why` of an instance with so many tasks, or tells its first fault.
pub fn read_why(words: LineWords<'_>, tasks: u32) -> Result<WhyLine, LineFault>
    ensures { ReadsAs (Expect.Why tasks) why_kind words.entry result }
{
    if is_why(&words, b"none", 0) {
        return Ok(WhyLine::None);
    }
    if is_why(&words, b"loose", 3) {
        return read_loose(words, tasks);
    }
    if is_why(&words, b"overflow", 4) {
        return read_overflow(words, tasks);
    }
    if is_why(&words, b"spent", 1) {
        return read_spent(words, tasks);
    }
    Err(LineFault::Shape)
}

/// One more than the most parts, where there are so many in a whole: none where this is below 0.
fn past_parts(whole: i128) -> u128
    ensures past { result ≤ 2 ^ 127 }
    ensures whole { (w : ℕ) → whole ≡ pos w → result ≡ w + 1 }
    ensures none { whole <ℤ pos 0 → result ≡ 0 }
{
    if whole < 0 {
        return 0;
    }
    whole.unsigned_abs() + 1
}

/// Reads a line `share` of so many columns, with so many parts in a whole, or tells its first fault.
pub fn read_share(words: LineWords<'_>, columns: u64, whole: i128) -> Result<ShareLine, LineFault>
    ensures { ReadsAs (Expect.Share columns whole) share_kind words.entry result }
{
    if !has_shape(&words, b"share", 2) {
        return Err(LineFault::Shape);
    }
    let column = read_natural(&words, 1, 0, columns as u128)?;
    let parts = read_natural(&words, 2, 1, past_parts(whole))?;
    Ok(ShareLine {
        column: column as u64,
        parts,
    })
}

/// Reads the line `spare` of an instance with so many tasks, with so many parts in a whole, or tells its first fault.
pub fn read_spare<'a>(
    words: LineWords<'a>,
    tasks: u32,
    whole: i128,
) -> Result<WideNumbers<'a>, LineFault>
    ensures { ReadsAs (Expect.Spare tasks whole) LineKind.Spare words.entry result }
{
    if !has_shape(&words, b"spare", tasks as usize) {
        return Err(LineFault::Shape);
    }
    if whole < 0 {
        return Err(LineFault::Number);
    }
    read_naturals(words, 1, past_parts(whole))
}
