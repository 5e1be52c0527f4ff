// The command `delays`.
ghost use Rattle.std.specs.Prelude.{◌≡◌, ◌+◌, ℕ, List, Err, IfOk, MatchResult, length};
ghost use Rattle.crew_terms.specs.Legal.{IsLegal};
ghost use Rattle.crew_io.specs.Draws.{TellsReads};
ghost use Rattle.crew_io.specs.Io.{HasEnded};
ghost use Rattle.cert_checker.specs.Checked.{opened_at};
ghost use Rattle.dossier_terms.specs.Texts.{no_line};
ghost use Rattle.dossier_commands.specs.Input.{IsGoing};
ghost use Rattle.delay_print.specs.Texts.{delays_text};
ghost use Rattle.delay_wave.specs.Waits.{AreWaits};
ghost use Rattle.delay_wave.specs.declared.lates.Late.{Late};
ghost use Rattle.late_lines.specs.First.{IsAfter};
ghost use Rattle.late_lines.specs.Lines.{AreLateLines, first_lines};
ghost use Rattle.delay_command.specs.Halts.{Gives, HaltsAt, HasWaits};
ghost use Rattle.delay_command.specs.Says.{PutsEnd, PutsHalt, TellsDelays, TellsOf};

use crate::dossier::read_alone;
use crate::laws::refused_has_no_form;
use crate::tasks::waits_in;
use cert_checker::Checker;
use crew_instance::{Instance, Plan};
use crew_io::lines::LineReader;
use crew_io::sink::{Sink, WriteFault};
use crew_io::source::Source;
use crew_terms::LONGEST_INPUT;
use delay_print::put_delays;
use delay_wave::Waits;
use dossier_commands::Ended;
use dossier_commands::texts::put_no;
use dossier_terms::Reason;
use late_lines::{Halt, LateLine, read_lates};
use std::alloc::{AllocError, Global};

/// Reads the dossier after these lines, to the end of the input, and gives the waits of its plan, if its tasks end as late
/// as the lines tell.
fn read_waits<S: Source>(
    alloc: Global,
    lines: &[LateLine],
    reader: &mut LineReader,
    checker: &mut Checker,
    src: &mut S,
) -> Result<Waits, Halt>
    requires going { IsGoing reader.old (length lines.now + 1) }
    requires lines { AreLateLines lines.now }
    requires checker { checker.old ≡ opened_at (length lines.now + 1) }
    ensures waits { IfOk result (HasWaits lines.now checker.new) }
    ensures says { (input : List ℕ) → IsAfter (first_lines lines.now) input reader.old (S.left src.old)
        → MatchResult result (λ _. Gives input lines.now checker.new)
        (HaltsAt input (S.left src.new)) }
    ensures ended { IfOk result (λ _. HasEnded (S.left src.new)) }
    ensures tells { TellsReads S.Source src.old src.new (result ≡ Err Halt.ReadFault) }
{
    read_alone(reader, checker, src)?;
    waits_in(alloc, checker.instance(), checker.plan(), lines)
}

/// Writes the no line of the line that is refused. A fault leaves a front of it.
fn put_refusal<K: Sink>(out: &mut K, line: u64, reason: Reason) -> Result<Ended, AllocError>
    ensures { PutsEnd K.Sink (no_line line reason) Ended.No out.old out.new result }
{
    match put_no(out, line, reason) {
        Ok(()) => Ok(Ended::No),
        Err(WriteFault) => Ok(Ended::WriteFault),
    }
}

/// Writes the no line of a reading that went no further, if a line is refused. A fault leaves a front of it.
fn put_halt<K: Sink>(out: &mut K, halt: Halt) -> Result<Ended, AllocError>
    ensures { PutsHalt K.Sink halt out.old out.new result }
{
    match halt {
        Halt::No { line, reason } => put_refusal(out, line, reason),
        Halt::ReadFault => Ok(Ended::ReadFault),
        Halt::OutOfMemory => Err(AllocError),
    }
}

/// Writes what the waits of a legal plan are. A fault leaves a front of it.
fn put_waits<K: Sink>(
    out: &mut K,
    instance: &Instance,
    plan: &Plan,
    waits: &Waits,
) -> Result<Ended, AllocError>
    requires legal { IsLegal instance.now plan.now }
    requires waits { (lates : List Late) × AreWaits instance.now plan.now lates waits.now }
    ensures { PutsEnd K.Sink (delays_text instance.now plan.now waits.now) Ended.Done
        out.old out.new result }
{
    match put_delays(out, instance, plan, waits) {
        Ok(()) => Ok(Ended::Done),
        Err(WriteFault) => Ok(Ended::WriteFault),
    }
}

/// Reads on after these lines with a checker that has read nothing yet, and writes what waits for what, or the no line of the
/// first line that is refused.
fn write_with<S: Source, K: Sink>(
    alloc: Global,
    lines: &[LateLine],
    reader: &mut LineReader,
    checker: &mut Checker,
    src: &mut S,
    out: &mut K,
) -> Result<Ended, AllocError>
    requires going { IsGoing reader.old (length lines.now + 1) }
    requires lines { AreLateLines lines.now }
    requires checker { checker.old ≡ opened_at (length lines.now + 1) }
    ensures { TellsOf S.Source K.Sink
        (λ input. IsAfter (first_lines lines.now) input reader.old (S.left src.old))
        src.old src.new out.old out.new result }
{
    refused_has_no_form();
    match read_waits(alloc, lines, reader, checker, src) {
        Ok(waits) => put_waits(out, checker.instance(), checker.plan(), &waits),
        Err(halt) => put_halt(out, halt),
    }
}

/// The same with a checker of its own.
fn write_behind<S: Source, K: Sink>(
    alloc: Global,
    lines: &[LateLine],
    reader: &mut LineReader,
    src: &mut S,
    out: &mut K,
) -> Result<Ended, AllocError>
    requires going { IsGoing reader.old (length lines.now + 1) }
    requires lines { AreLateLines lines.now }
    ensures { TellsOf S.Source K.Sink
        (λ input. IsAfter (first_lines lines.now) input reader.old (S.left src.old))
        src.old src.new out.old out.new result }
{
    let mut checker = Checker::open_at(alloc, lines.len() as u64 + 1)?;
    let ended = write_with(alloc, lines, reader, &mut checker, src, out);
    // By name, so that its many parts are let go of in one call.
    drop(checker);
    ended
}

/// Reads lines `late TASK END`, the line `dossier` and one dossier, and nothing after it, and writes what waits for what if
/// these tasks end as late as that and teams keep the order of their tasks; or the no line of the first line that is refused.
/// All memory is taken before the first byte is written. A fault leaves a front of the text.
pub fn write_delays<S: Source, K: Sink>(
    alloc: Global,
    src: &mut S,
    out: &mut K,
) -> Result<Ended, AllocError>
    ensures { TellsDelays S.Source K.Sink src.old src.new out.old out.new result }
{
    refused_has_no_form();
    let mut reader = LineReader::open(alloc, LONGEST_INPUT)?;
    match read_lates(alloc, &mut reader, src) {
        Ok(lines) => write_behind(alloc, &lines, &mut reader, src, out),
        Err(halt) => put_halt(out, halt),
    }
}
