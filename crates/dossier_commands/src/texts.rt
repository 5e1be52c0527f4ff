// The texts that are written: for a good dossier its yes line, its roster or why tasks are open, and `no` for the first line that is refused.
ghost use Rattle.std.specs.Prelude.{◌≡◌, ◌≤◌, length, take};
ghost use Rattle.crew_io.specs.Puts.{Puts};
ghost use Rattle.dossier_terms.specs.Dossier.{Dossier};
ghost use Rattle.dossier_terms.specs.Texts.{yes_line, no_line};
ghost use Rattle.cert_checker.specs.Checked.{IsWholeAt, verdict_of};
ghost use Rattle.dossier_commands.specs.Input.{IsYes};
ghost use Rattle.dossier_commands.specs.Outputs.{output_of};

use crate::output::Output;
use cert_checker::{Checker, Verdict};
use crew_io::put::put_all;
use crew_io::sink::{Sink, WriteFault};
use crew_terms::PlanVerdict;
use dossier_terms::Reason;
use line_out::{LineRoom, Part, add_bytes, add_count, line_room, put_line, put_word};
use roster_print::rosters;
use why_not::why;

/// Writes the yes line of a good dossier, of which the verdict tells what it says, into the room, and gives where it ends.
// Word by word, so that each is copied as the constant that it is.
#[inline(always)]
fn gather_yes(room: &mut LineRoom, verdict: Verdict) -> usize
    ensures within { result ≤ length room.new }
    ensures line { (d : Dossier) → verdict ≡ verdict_of d → take result room.new ≡ yes_line d }
{
    let at = add_bytes(room, 0, b"yes");
    let at = add_count(room, at, b"unassigned", verdict.unassigned);
    let at = add_count(room, at, b"bound", verdict.bound);
    let at = add_count(room, at, b"splits", verdict.splits);
    let at = add_count(room, at, b"closed", verdict.closed);
    let at = add_count(room, at, b"open", verdict.left_open);
    let at = add_count(room, at, b"unshown", verdict.unshown);
    add_bytes(room, at, b"\n")
}

/// Writes the yes line of a good dossier, of which the verdict tells what it says. A fault leaves a front of it.
pub fn put_yes<K: Sink>(out: &mut K, verdict: Verdict) -> Result<(), WriteFault>
    ensures { (d : Dossier) → verdict ≡ verdict_of d
        → Puts K.Sink (yes_line d) out.old out.new result }
{
    let mut room = line_room();
    let end = gather_yes(&mut room, verdict);
    put_all(out, &room[..end])
}

/// A number as a part of a line.
fn number(n: u32) -> Part<'static>
    ensures { result ≡ Part.Number n }
{
    Part::Number(n as u64)
}

/// Writes the no line of a plan's first fault: its word, and the numbers of a team and of tasks.
fn put_plan<K: Sink>(out: &mut K, line: u64, verdict: PlanVerdict) -> Result<(), WriteFault>
    ensures { Puts K.Sink (no_line line (Reason.Plan verdict)) out.old out.new result }
{
    let no = Part::Word(b"no");
    let at = Part::Number(line);
    let plan = Part::Word(b"Plan");
    match verdict {
        PlanVerdict::Legal => put_line(out, &[no, at, plan, Part::Word(b"Legal")]),
        PlanVerdict::Frozen(j) => put_line(out, &[no, at, plan, Part::Word(b"Frozen"), number(j)]),
        PlanVerdict::Window(j) => put_line(out, &[no, at, plan, Part::Word(b"Window"), number(j)]),
        PlanVerdict::Count(j) => put_line(out, &[no, at, plan, Part::Word(b"Count"), number(j)]),
        PlanVerdict::Skill(k, j) => {
            put_line(
                out,
                &[no, at, plan, Part::Word(b"Skill"), number(k), number(j)],
            )
        }
        PlanVerdict::Shift(k, j) => {
            put_line(
                out,
                &[no, at, plan, Part::Word(b"Shift"), number(k), number(j)],
            )
        }
        PlanVerdict::Clash(k, j, h) => put_line(
            out,
            &[
                no,
                at,
                plan,
                Part::Word(b"Clash"),
                number(k),
                number(j),
                number(h),
            ],
        ),
    }
}

/// Writes the no line of a reason. A fault leaves a front of it.
pub fn put_no<K: Sink>(out: &mut K, line: u64, reason: Reason) -> Result<(), WriteFault>
    ensures { Puts K.Sink (no_line line reason) out.old out.new result }
{
    let no = Part::Word(b"no");
    let at = Part::Number(line);
    match reason {
        Reason::Shape => put_word(out, b"no", line, b"Shape"),
        Reason::Number => put_word(out, b"no", line, b"Number"),
        Reason::Name => put_word(out, b"no", line, b"Name"),
        Reason::Instance => put_word(out, b"no", line, b"Instance"),
        Reason::Plan(verdict) => put_plan(out, line, verdict),
        Reason::Count => put_word(out, b"no", line, b"Count"),
        Reason::Cut => put_word(out, b"no", line, b"Cut"),
        Reason::Pair => put_word(out, b"no", line, b"Pair"),
        Reason::Steps => put_word(out, b"no", line, b"Steps"),
        Reason::Cause => put_word(out, b"no", line, b"Cause"),
        Reason::Potential(k, j) => {
            put_line(
                out,
                &[no, at, Part::Word(b"Potential"), number(k), number(j)],
            )
        }
        Reason::Worth(k) => put_line(out, &[no, at, Part::Word(b"Worth"), number(k)]),
        Reason::Bound => put_word(out, b"no", line, b"Bound"),
        Reason::Budget => put_word(out, b"no", line, b"Budget"),
        Reason::Pool => put_word(out, b"no", line, b"Pool"),
        Reason::End => put_word(out, b"no", line, b"End"),
        Reason::TooLong => put_word(out, b"no", line, b"TooLong"),
        Reason::TooMuch => put_word(out, b"no", line, b"TooMuch"),
    }
}

/// Writes what is asked for of the dossier that the checker has, of which the verdict tells what it says. A fault
/// leaves a front of it.
pub fn put_output<K: Sink>(
    out: &mut K,
    output: Output,
    checker: &Checker,
    verdict: Verdict,
) -> Result<(), WriteFault>
    requires { IsYes verdict checker.now }
    ensures { (d : Dossier) → IsWholeAt checker.now.at d → verdict ≡ verdict_of d
        → Puts K.Sink (output_of output d) out.old out.new result }
{
    match output {
        Output::YesLines => put_yes(out, verdict),
        Output::Rosters => rosters(out, checker.instance(), checker.plan()),
        Output::Why => why(out, checker.instance(), checker.plan()),
    }
}
