// The lines that are written: one for a good bundle, and `no` for the first line that is refused.
ghost use Rattle.crew_io.specs.Puts.{Puts};
ghost use Rattle.part_texts.specs.Lines.{yes_parts_line};
ghost use Rattle.parts_command.specs.Texts.{no_bundle_line};

use crew_io::sink::{Sink, WriteFault};
use dossier_commands::texts::put_no;
use line_out::{Part, put_line, put_word};
use parts_reader::{BundleReason, BundleVerdict};

/// Writes the yes line of a good bundle that says this. A fault leaves a front of it.
pub(crate) fn put_yes<K: Sink>(out: &mut K, verdict: BundleVerdict) -> Result<(), WriteFault>
    ensures { Puts K.Sink (yes_parts_line verdict.unassigned verdict.bound verdict.parts)
        out.old out.new result }
{
    put_line(
        out,
        &[
            Part::Word(b"yes"),
            Part::Word(b"unassigned"),
            Part::Number(verdict.unassigned as u64),
            Part::Word(b"bound"),
            Part::Number(verdict.bound),
            Part::Word(b"parts"),
            Part::Number(verdict.parts as u64),
        ],
    )
}

/// Writes the no line of the line of this number, from 1, that is refused. A fault leaves a front of it.
pub(crate) fn put_no_bundle<K: Sink>(
    out: &mut K,
    line: u64,
    reason: BundleReason,
) -> Result<(), WriteFault>
    ensures { Puts K.Sink (no_bundle_line line reason) out.old out.new result }
{
    match reason {
        BundleReason::Line(cause) => put_no(out, line, cause),
        BundleReason::Part => put_word(out, b"no", line, b"Part"),
    }
}
