// The line that an audit writes.
ghost use Rattle.std.specs.Prelude.{◌≡◌, ◌≢◌, ◌∷◌, ℕ, []};
ghost use Rattle.std.specs.Fmt.{decimal};
ghost use Rattle.crew_io.specs.Puts.{Puts};
ghost use Rattle.audit_command.specs.Texts.{event_text, no_line};

use crate::event::Event;
use cert_checker::Stop;
use crew_io::sink::{Sink, WriteFault};
use crew_terms::PlanVerdict;
use day_commands::refused::{DayFault, put_refused};
use dossier_terms::Reason;
use flight_changes::ChangeFault;
use line_out::{Part, put_line};

const AUDIT: Part<'static> = Part::Word(b"audit");

const NO: Part<'static> = Part::Word(b"no");

/// Writes the line of a round, with one word. A fault leaves a front of it, as in the calls below.
fn put_no<K: Sink>(out: &mut K, round: u64, word: &[u8]) -> Result<(), WriteFault>
    ensures { Puts K.Sink (no_line round (word.now ∷ [])) out.old out.new result }
{
    put_line(out, &[AUDIT, NO, Part::Number(round), Part::Word(word)])
}

/// Writes the line where no line `dossiers` comes.
fn put_stop<K: Sink>(out: &mut K, why: Stop) -> Result<(), WriteFault>
    ensures { Puts K.Sink (event_text (Event.NoDossiers why)) out.old out.new result }
{
    match why {
        Stop::End { .. } => put_no(out, 0, b"End"),
        Stop::TooLong => put_no(out, 0, b"TooLong"),
        Stop::TooMuch => put_no(out, 0, b"TooMuch"),
    }
}

/// Where a line of a round's dossier stands: the round, and the line's number.
#[derive(Clone, Copy)]
struct Place {
    round: u64,
    line: u64,
}

/// Writes the line of a dossier that breaks a rule, with one word.
fn put_word<K: Sink>(out: &mut K, at: Place, word: &[u8]) -> Result<(), WriteFault>
    ensures { Puts K.Sink (no_line at.round (decimal at.line ∷ word.now ∷ [])) out.old out.new result }
{
    put_line(
        out,
        &[
            AUDIT,
            NO,
            Part::Number(at.round),
            Part::Number(at.line),
            Part::Word(word),
        ],
    )
}

/// A number as a part of a line.
fn number(n: u32) -> Part<'static>
    ensures { result ≡ Part.Number n }
{
    Part::Number(n as u64)
}

/// Writes the line of a plan's first fault.
fn put_plan<K: Sink>(out: &mut K, at: Place, verdict: PlanVerdict) -> Result<(), WriteFault>
    ensures { Puts K.Sink (event_text (Event.BadDossier at.round at.line (Reason.Plan verdict)))
        out.old out.new result }
{
    let round = Part::Number(at.round);
    let line = Part::Number(at.line);
    let plan = Part::Word(b"Plan");
    match verdict {
        PlanVerdict::Legal => {
            let word = Part::Word(b"Legal");
            put_line(out, &[AUDIT, NO, round, line, plan, word])
        }
        PlanVerdict::Frozen(j) => {
            let word = Part::Word(b"Frozen");
            put_line(out, &[AUDIT, NO, round, line, plan, word, number(j)])
        }
        PlanVerdict::Window(j) => {
            let word = Part::Word(b"Window");
            put_line(out, &[AUDIT, NO, round, line, plan, word, number(j)])
        }
        PlanVerdict::Count(j) => {
            let word = Part::Word(b"Count");
            put_line(out, &[AUDIT, NO, round, line, plan, word, number(j)])
        }
        PlanVerdict::Skill(k, j) => {
            let word = Part::Word(b"Skill");
            let (team, task) = (number(k), number(j));
            put_line(out, &[AUDIT, NO, round, line, plan, word, team, task])
        }
        PlanVerdict::Shift(k, j) => {
            let word = Part::Word(b"Shift");
            let (team, task) = (number(k), number(j));
            put_line(out, &[AUDIT, NO, round, line, plan, word, team, task])
        }
        PlanVerdict::Clash(k, j, h) => {
            let word = Part::Word(b"Clash");
            let (team, task, next) = (number(k), number(j), number(h));
            put_line(out, &[AUDIT, NO, round, line, plan, word, team, task, next])
        }
    }
}

/// Writes the line of a dossier that breaks a rule.
fn put_reason<K: Sink>(out: &mut K, at: Place, reason: Reason) -> Result<(), WriteFault>
    ensures { Puts K.Sink (event_text (Event.BadDossier at.round at.line reason))
        out.old out.new result }
{
    let round = Part::Number(at.round);
    let line = Part::Number(at.line);
    match reason {
        Reason::Shape => put_word(out, at, b"Shape"),
        Reason::Number => put_word(out, at, b"Number"),
        Reason::Name => put_word(out, at, b"Name"),
        Reason::Instance => put_word(out, at, b"Instance"),
        Reason::Plan(verdict) => put_plan(out, at, verdict),
        Reason::Count => put_word(out, at, b"Count"),
        Reason::Cut => put_word(out, at, b"Cut"),
        Reason::Pair => put_word(out, at, b"Pair"),
        Reason::Steps => put_word(out, at, b"Steps"),
        Reason::Cause => put_word(out, at, b"Cause"),
        Reason::Potential(k, j) => {
            let word = Part::Word(b"Potential");
            let (team, task) = (number(k), number(j));
            put_line(out, &[AUDIT, NO, round, line, word, team, task])
        }
        Reason::Worth(k) => {
            let word = Part::Word(b"Worth");
            put_line(out, &[AUDIT, NO, round, line, word, number(k)])
        }
        Reason::Bound => put_word(out, at, b"Bound"),
        Reason::Budget => put_word(out, at, b"Budget"),
        Reason::Pool => put_word(out, at, b"Pool"),
        Reason::End => put_word(out, at, b"End"),
        Reason::TooLong => put_word(out, at, b"TooLong"),
        Reason::TooMuch => put_word(out, at, b"TooMuch"),
    }
}

/// Writes the line of an event. Want of memory refuses no day. A fault leaves a front of the line.
pub fn put_event<K: Sink>(out: &mut K, event: Event) -> Result<(), WriteFault>
    requires { (number : ℕ) → event ≢ Event.Refused number (DayFault.Change ChangeFault.OutOfMemory) }
    ensures { Puts K.Sink (event_text event) out.old out.new result }
{
    match event {
        Event::NoDossiers(why) => put_stop(out, why),
        Event::Refused { number, cause } => put_refused(out, number, cause),
        Event::BadDossier {
            round,
            line,
            reason,
        } => put_reason(out, Place { round, line }, reason),
        Event::Instance { round } => put_no(out, round, b"Instance"),
        Event::Nodes { round } => put_no(out, round, b"Nodes"),
        Event::Kept { round } => put_no(out, round, b"Kept"),
        Event::More { rounds } => put_no(out, rounds, b"More"),
        Event::Belong { rounds } => {
            put_line(out, &[AUDIT, Part::Number(rounds), Part::Word(b"yes")])
        }
    }
}
