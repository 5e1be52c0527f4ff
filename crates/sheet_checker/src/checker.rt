// The checker of sheets: what it has read, and what it says of one more line.
ghost use Rattle.std.specs.Prelude.{◌≡◌, ◌≤◌, ◌<◌, ◌+◌, ◌↔◌, ◌++◌, ◌∷◌, [], ℕ, List, None, Ok, IfOk, IfSome, OnErr, IsErr, IsTrue};
ghost use Rattle.crew_terms.specs.Words.{IsLine, Words, words_of};
ghost use Rattle.crew_terms.specs.declared.TheConstants.{LONGEST_INPUT};
ghost use Rattle.dossier_terms.specs.declared.Reason.{Reason};
ghost use Rattle.sheet_terms.specs.Reading.{SheetReading, First};
ghost use Rattle.sheet_terms.specs.Table.{ReachesInSheet};
ghost use Rattle.sheet_checker.specs.Checked.{IsDueAt, IsJudged, IsOpen, IsReached, IsTrueBound, fresh_checker, refused_at};
ghost use Rattle.cert_checker.specs.Checked.{stop_reason_of};
ghost use Rattle.sheet_checker.specs.Due.{Awaits};
ghost use Rattle.sheet_checker.specs.Kept.{IsKeptFrom};

use crate::due::{Due, Step};
use crate::judge::judge;
use crate::laws::{one_answer, reached_goes_on, whole_is_true};
use cert_checker::Stop;
use dossier_terms::Reason;
use field_table::Cuts;
use line_in::Refusal;
use std::alloc::{AllocError, Global};
use std::marker::Model;
use std::mem;

/// What the checker says of a line.
#[derive(Clone, Copy, Debug, PartialEq, Eq)]
pub enum SheetSaid {
    /// It breaks no rule, and one more line is due.
    More,
    /// It ends a good sheet, by which every legal plan leaves at least `l` tasks unassigned.
    Whole { l: u32 },
    /// The line of this number, from 1, breaks a rule, or does not come whole.
    No { line: u64, reason: Reason },
}

// Where the checker stands.
#[derive(Drop)]
enum State {
    // A line of a sheet is due.
    Due(Due),
    // A sheet is whole: the first line of the next one is due, or the end of the input.
    Whole,
    Refused { line: u64, reason: Reason },
    Spent,
}

/// Reads sheets, one line after another.
#[derive(Drop)]
pub struct SheetChecker {
    alloc: Global,
    cuts: Cuts,
    lines: u64,
    state: State,
}

impl Model for SheetChecker {
    ghost use Rattle.sheet_checker.specs.Checked.{Checked};

    ghost Value = { Checked };

    ghost use Rattle.sheet_checker.specs.Kept.{checked, IsKept};

    ghost view = { checked };

    ghost invariant = { IsKept };
}

/// The reason that tells why no line comes.
fn stop_reason(why: Stop) -> Reason
    ensures { result ≡ stop_reason_of why }
{
    match why {
        Stop::End { .. } => Reason::End,
        Stop::TooLong => Reason::TooLong,
        Stop::TooMuch => Reason::TooMuch,
    }
}

impl SheetChecker {
    /// A checker that has read nothing yet.
    pub fn open(alloc: Global) -> Result<SheetChecker, AllocError>
        ensures { IfOk result (λ c. c ≡ fresh_checker) }
    {
        let cuts = Cuts::new(alloc)?;
        Ok(SheetChecker {
            alloc,
            cuts,
            lines: 0,
            state: State::Due(Due::First),
        })
    }

    /// How many lines are judged so far; those after a line that is refused are not.
    pub fn lines(&self) -> u64
        ensures count { result ≡ self.now.lines }
        ensures few { result ≤ LONGEST_INPUT }
    {
        self.lines
    }

    /// Judges the line that is due, which was taken out of the state.
    fn judge_line(&mut self, due: Due, line: &[u8]) -> Result<SheetSaid, AllocError>
        requires taken { self.old.at ≡ State.Spent }
        requires kept { IsKeptFrom due }
        requires plain { IsLine line.now }
        requires few { self.old.lines < LONGEST_INPUT }
        ensures judged { (reading : SheetReading) → IsReached reading → Awaits due reading
            → IfOk result (λ said. IsJudged self.old.lines reading (words_of line.now) said self.new) }
        ensures memory { OnErr result (self.new ≡ self.old) }
    {
        one_answer();
        reached_goes_on();
        let words = self.cuts.split(line);
        match judge(self.alloc, due, words) {
            Ok(Step::More(due)) => {
                self.lines += 1;
                self.state = State::Due(due);
                Ok(SheetSaid::More)
            }
            Ok(Step::Whole { bound }) => {
                self.lines += 1;
                self.state = State::Whole;
                Ok(SheetSaid::Whole { l: bound })
            }
            Err(Refusal::No(reason)) => {
                self.lines += 1;
                let line = self.lines;
                self.state = State::Refused { line, reason };
                Ok(SheetSaid::No { line, reason })
            }
            Err(Refusal::OutOfMemory) => Err(AllocError),
        }
    }

    /// Judges one more line, without its LF. After a line that is refused every later call gives that answer again, and after
    /// want of memory every later call does that.
    pub fn line(&mut self, line: &[u8]) -> Result<SheetSaid, AllocError>
        requires plain { IsLine line.now }
        requires few { self.old.lines < LONGEST_INPUT }

        // The line that was due is judged by the table of a sheet's lines.
        ensures judged { (due : SheetReading) → IsReached due → IsDueAt self.old.at due
            → IfOk result (λ said. IsJudged self.old.lines due (words_of line.now) said self.new) }

        // Where it ends a sheet, the sheet is good, and no legal plan of its instance leaves fewer tasks unassigned.
        ensures whole { (read : List Words) (due : SheetReading) (l : ℕ)
            → ReachesInSheet First read due → IsDueAt self.old.at due → result ≡ Ok (SheetSaid.Whole l)
            → IsTrueBound (read ++ words_of line.now ∷ []) l }

        ensures refused { (number : ℕ) (reason : Reason) →
            self.old.at ≡ State.Refused number reason →
            (result ≡ Ok (SheetSaid.No number reason)) × (self.new ≡ self.old) }
        ensures spent { self.old.at ≡ State.Spent → IsErr result }
        ensures memory { OnErr result (self.new ≡ record self.old { at = State.Spent }) }
    {
        whole_is_true();
        let due = match mem::replace(&mut self.state, State::Spent) {
            State::Due(due) => due,
            State::Whole => Due::First,
            State::Refused { line, reason } => {
                self.state = State::Refused { line, reason };
                return Ok(SheetSaid::No { line, reason });
            }
            State::Spent => return Err(AllocError),
        };
        self.judge_line(due, line)
    }

    /// Whether a sheet is whole, and no line was read after it.
    pub fn is_between(&self) -> bool
        ensures { IsTrue result ↔ (self.now.at ≡ State.Whole) }
    {
        matches!(self.state, State::Whole)
    }

    /// Is told that no line comes any more. None exactly where the input has ended behind a whole sheet; else the line that is
    /// due is refused.
    pub fn stopped(&mut self, why: Stop) -> Option<SheetSaid>
        requires { IsOpen self.old.at }
        ensures over { (result ≡ None) ↔ ((self.old.at ≡ State.Whole) × (why ≡ Stop.End 0)) }
        ensures same { result ≡ None → self.new ≡ self.old }
        ensures refused { IfSome result
            (λ said. (said ≡ SheetSaid.No (self.old.lines + 1) (stop_reason_of why))
            × (self.new ≡ refused_at self.old (stop_reason_of why))) }
    {
        if why == (Stop::End { partial: 0 }) && self.is_between() {
            return None;
        }
        let line = self.lines + 1;
        let reason = stop_reason(why);
        self.state = State::Refused { line, reason };
        Some(SheetSaid::No { line, reason })
    }
}
