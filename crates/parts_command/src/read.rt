// Bundles, read one after another.
ghost use Rattle.std.specs.Prelude.{◌≡◌};
ghost use Rattle.crew_terms.specs.declared.TheConstants.{LONGEST_INPUT};
ghost use Rattle.crew_io.specs.Lines.{fresh_reader};
ghost use Rattle.parts_command.specs.Says.{ReadsBundles};

use crate::laws::refused_is_not_accepted;
use crate::texts::{put_no_bundle, put_yes};
use crew_io::lines::LineReader;
use crew_io::sink::{Sink, WriteFault};
use crew_io::source::Source;
use crew_terms::LONGEST_INPUT;
use dossier_commands::Ended;
use parts_reader::{Outcome, next_bundle};
use std::alloc::{AllocError, Global};

/// Reads one bundle after another, and writes a yes line for each good one, or the no line of the first line that is refused.
pub fn read_bundles<S: Source, K: Sink>(
    alloc: Global,
    src: &mut S,
    out: &mut K,
) -> Result<Ended, AllocError>
    ensures { ReadsBundles S.Source K.Sink src.old src.new out.old out.new result }
{
    let mut reader = LineReader::open(alloc, LONGEST_INPUT)?;
    read_all(alloc, &mut reader, src, out)
}

/// Reads all bundles with a reader that has read nothing yet.
fn read_all<S: Source, K: Sink>(
    alloc: Global,
    reader: &mut LineReader,
    src: &mut S,
    out: &mut K,
) -> Result<Ended, AllocError>
    requires { reader.old ≡ fresh_reader LONGEST_INPUT }
    ensures { ReadsBundles S.Source K.Sink src.old src.new out.old out.new result }
{
    refused_is_not_accepted();
    let mut lines = 0;
    'bundles: loop {
        match next_bundle(alloc, reader, &mut lines, src)? {
            Outcome::Yes(verdict) => {
                if let Err(WriteFault) = put_yes(out, verdict) {
                    return Ok(Ended::WriteFault);
                }
            }
            Outcome::End => return Ok(Ended::Done),
            Outcome::No { line, reason } => {
                if let Err(WriteFault) = put_no_bundle(out, line, reason) {
                    return Ok(Ended::WriteFault);
                }
                return Ok(Ended::No);
            }
            Outcome::ReadFault => return Ok(Ended::ReadFault),
        }
    }
}
