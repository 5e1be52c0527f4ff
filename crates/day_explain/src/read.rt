// A day, read, and what is wrong with it, written.
ghost use Rattle.std.specs.Prelude.{◌≡◌, ◌≤◌, ℕ, List, length, None, Ok, IfOk, IsTrue, OnErr};
ghost use Rattle.crew_terms.specs.declared.TheConstants.{LONGEST_DAY};
ghost use Rattle.crew_io.specs.Io.{Appended, AppendedPart};
ghost use Rattle.crew_io.specs.Puts.{TellsWrites};
ghost use Rattle.day_explain.specs.Says.{AreTold, ReadsDay, SaysAt, Wrote, end_of, is_of_text, is_wrong_or_write_fault};
ghost use Rattle.day_explain.specs.Text.{long_text};

use crate::text::put_explanation;
use crate::told::{Told, tell};
use crew_io::put::put_all;
use crew_io::sink::{Sink, WriteFault};
use crew_io::source::Source;
use crew_io::text::{Text, read_text};
use crew_terms::LONGEST_DAY;
use day_faults::{DayFaults, faults_of};
use std::alloc::{AllocError, Global};

/// How it ended.
#[derive(Clone, Copy, Debug, PartialEq, Eq)]
pub enum Ended {
    /// No record is refused.
    Fine,
    /// A record is refused, or the text is too long.
    Wrong,
    /// A read failed.
    ReadFault,
    /// A write failed.
    WriteFault,
}

/// Writes what is told of a text that is longer than a day's may be.
fn put_long<K: Sink>(out: &mut K) -> Ended
    ensures wrong { result ≡ Ended.Wrong → Appended (K.got out.old) (K.got out.new) long_text }
    ensures part { AppendedPart (K.got out.old) (K.got out.new) long_text }
    ensures others { IsTrue (is_wrong_or_write_fault result) }
    ensures tells { TellsWrites K.Sink out.old out.new (result ≡ Ended.WriteFault) }
{
    let text = b"the day is longer than 8388608 bytes\napply would say: refused 0 TooLong\n";
    match put_all(out, text) {
        Ok(()) => Ended::Wrong,
        Err(WriteFault) => Ended::WriteFault,
    }
}

/// How it ends where these faults were told.
fn end_of(faults: &DayFaults) -> Ended
    ensures { result ≡ end_of faults.now.records.items }
{
    match faults.records.as_slice() {
        [] => Ended::Fine,
        _ => Ended::Wrong,
    }
}

/// Writes what is told of the faults of a text.
fn put_told<K: Sink>(out: &mut K, faults: &DayFaults, told: &[Told]) -> Ended
    ensures says { (text : List ℕ) → length text ≤ LONGEST_DAY
        → AreTold text faults.now told.now
        → Wrote (K.got out.old) (K.got out.new) (SaysAt result None text) }
    ensures others { IsTrue (is_of_text result) }
    ensures tells { TellsWrites K.Sink out.old out.new (result ≡ Ended.WriteFault) }
{
    match put_explanation(out, faults, told) {
        Ok(()) => end_of(faults),
        Err(WriteFault) => Ended::WriteFault,
    }
}

/// Writes what is wrong with a text.
fn explain_text<K: Sink>(alloc: Global, text: &[u8], out: &mut K) -> Result<Ended, AllocError>
    requires { length text.now ≤ LONGEST_DAY }
    ensures says { IfOk result (λ ended. Wrote (K.got out.old) (K.got out.new)
        (SaysAt ended None text.now)) }
    ensures nothing { OnErr result (K.got out.new ≡ K.got out.old) }
    ensures others { IfOk result (λ ended. IsTrue (is_of_text ended)) }
    ensures tells { TellsWrites K.Sink out.old out.new (result ≡ Ok Ended.WriteFault) }
{
    let faults = faults_of(alloc, text)?;
    let told = tell(alloc, text, faults.records.as_slice())?;
    Ok(put_told(out, &faults, told.as_slice()))
}

/// Reads a day, and writes all that is wrong with it: for each fault a line with the number of the line on which its record begins, what
/// is wrong and what to write; then what is to be remarked; and last what `apply` would say, which is that it refuses the record of the
/// first fault. A record that is refused is left out, as if it were not there, and what follows from that is told once. AllocError
/// comes where memory is wanting; then nothing was written.
pub fn explain<S: Source, K: Sink>(
    alloc: Global,
    src: &mut S,
    out: &mut K,
) -> Result<Ended, AllocError>
    ensures { ReadsDay S.Source K.Sink src.old src.new out.old out.new result }
{
    match read_text(alloc, src, LONGEST_DAY)? {
        Text::Whole(text) => {
            let ended = explain_text(alloc, text.as_slice(), out)?;
            Ok(ended)
        }
        Text::TooLong => Ok(put_long(out)),
        Text::ReadFault => Ok(Ended::ReadFault),
    }
}
