// Sheets, read one after another.
ghost use Rattle.std.specs.Prelude.{◌≡◌};
ghost use Rattle.crew_terms.specs.declared.TheConstants.{LONGEST_INPUT};
ghost use Rattle.crew_io.specs.Lines.{fresh_reader};
ghost use Rattle.crew_io.specs.Puts.{Puts};
ghost use Rattle.sheet_terms.specs.Lines.{yes_bound_line};
ghost use Rattle.sheet_checker.specs.Checked.{fresh_checker};
ghost use Rattle.sheet_commands.specs.Says.{ReadsSheets};

use crate::input::{Outcome, next_sheet};
use crate::laws::refused_is_not_accepted;
use crew_io::lines::LineReader;
use crew_io::sink::{Sink, WriteFault};
use crew_io::source::Source;
use crew_terms::LONGEST_INPUT;
use dossier_commands::Ended;
use dossier_commands::texts::put_no;
use line_out::{Part, put_line};
use sheet_checker::SheetChecker;
use std::alloc::{AllocError, Global};

/// Writes the yes line of a good sheet with this bound. A fault leaves a front of it.
fn put_yes<K: Sink>(out: &mut K, l: u32) -> Result<(), WriteFault>
    ensures { Puts K.Sink (yes_bound_line l) out.old out.new result }
{
    put_line(
        out,
        &[
            Part::Word(b"yes"),
            Part::Word(b"bound"),
            Part::Number(l as u64),
        ],
    )
}

/// Reads one sheet after another, and writes a yes line for each good one, or the no line of the first line that is refused.
pub fn read_sheets<S: Source, K: Sink>(
    alloc: Global,
    src: &mut S,
    out: &mut K,
) -> Result<Ended, AllocError>
    ensures { ReadsSheets S.Source K.Sink src.old src.new out.old out.new result }
{
    let mut reader = LineReader::open(alloc, LONGEST_INPUT)?;
    let mut checker = SheetChecker::open(alloc)?;
    let ended = read_all(&mut reader, &mut checker, src, out);
    // By name, so that its many parts are let go of in one call.
    drop(checker);
    ended
}

/// Reads all sheets with a reader and a checker that have read nothing yet.
fn read_all<S: Source, K: Sink>(
    reader: &mut LineReader,
    checker: &mut SheetChecker,
    src: &mut S,
    out: &mut K,
) -> Result<Ended, AllocError>
    requires reader { reader.old ≡ fresh_reader LONGEST_INPUT }
    requires checker { checker.old ≡ fresh_checker }
    ensures { ReadsSheets S.Source K.Sink src.old src.new out.old out.new result }
{
    refused_is_not_accepted();
    'sheets: loop {
        match next_sheet(reader, checker, src)? {
            Outcome::Yes { l } => {
                if let Err(WriteFault) = put_yes(out, l) {
                    return Ok(Ended::WriteFault);
                }
            }
            Outcome::End => return Ok(Ended::Done),
            Outcome::No { line, reason } => {
                if let Err(WriteFault) = put_no(out, line, reason) {
                    return Ok(Ended::WriteFault);
                }
                return Ok(Ended::No);
            }
            Outcome::ReadFault => return Ok(Ended::ReadFault),
        }
    }
}
