// The command `squeeze`.
ghost use Rattle.std.specs.Prelude.{◌≡◌, ◌≤◌};
ghost use Rattle.crew_terms.specs.declared.TheConstants.{LONGEST_INPUT, MOST_NODES};
ghost use Rattle.crew_io.specs.Lines.{fresh_reader};
ghost use Rattle.cert_checker.specs.Checked.{fresh_checker};
ghost use Rattle.squeeze_terms.specs.declared.TheConstants.{MOST_STEPS};
ghost use Rattle.squeeze_command.specs.Says.{SqueezesDossiers};
ghost use Rattle.squeeze_command.specs.Sheets.{PutsSqueezed};

use cert_checker::Checker;
use crew_instance::Instance;
use crew_io::lines::LineReader;
use crew_io::sink::{Sink, WriteFault};
use crew_io::source::Source;
use crew_terms::LONGEST_INPUT;
use dossier_commands::Ended;
use dossier_commands::input::{Outcome, next_dossier};
use dossier_commands::laws::refused_is_not_accepted;
use dossier_commands::texts::put_no;
use price_run::squeeze;
use sheet_write::{PutFault, squeezed_prices_prove, write_sheet};
use std::alloc::{AllocError, Global};

/// Writes the sheet of what a price run of so many steps on the instance hands out. A write fault leaves a front of it; for
/// want of memory nothing is written.
fn put_squeezed<K: Sink>(
    alloc: Global,
    out: &mut K,
    instance: &Instance,
    nodes: u32,
    steps: u32,
) -> Result<(), PutFault>
    requires nodes { nodes ≤ MOST_NODES }
    requires steps { steps ≤ MOST_STEPS }
    ensures { PutsSqueezed K.Sink instance.now nodes steps out.old out.new result }
{
    squeezed_prices_prove();
    let got = squeeze(alloc, instance, steps)?;
    write_sheet(alloc, out, instance, nodes, &got)
}

/// Reads one dossier after another, runs prices for so many steps on the instance of each, and writes its sheet; or writes
/// the no line of the first line that is refused. A write fault leaves a front of what was due.
pub fn squeeze_dossiers<S: Source, K: Sink>(
    alloc: Global,
    steps: u32,
    src: &mut S,
    out: &mut K,
) -> Result<Ended, AllocError>
    requires { steps ≤ MOST_STEPS }
    ensures { SqueezesDossiers S.Source K.Sink steps src.old src.new out.old out.new result }
{
    let mut reader = LineReader::open(alloc, LONGEST_INPUT)?;
    let mut checker = Checker::open(alloc)?;
    let ended = squeeze_all(alloc, &mut reader, &mut checker, steps, src, out);
    // By name, so that its many parts are let go of in one call.
    drop(checker);
    ended
}

/// The same with a reader and a checker that have read nothing yet.
fn squeeze_all<S: Source, K: Sink>(
    alloc: Global,
    reader: &mut LineReader,
    checker: &mut Checker,
    steps: u32,
    src: &mut S,
    out: &mut K,
) -> Result<Ended, AllocError>
    requires steps { steps ≤ MOST_STEPS }
    requires reader { reader.old ≡ fresh_reader LONGEST_INPUT }
    requires checker { checker.old ≡ fresh_checker }
    ensures { SqueezesDossiers S.Source K.Sink steps src.old src.new out.old out.new result }
{
    refused_is_not_accepted();
    'dossiers: loop {
        match next_dossier(reader, checker, src)? {
            Outcome::Yes(_) => {
                match put_squeezed(alloc, out, checker.instance(), checker.nodes(), steps) {
                    Ok(()) => {}
                    Err(PutFault::WriteFault) => return Ok(Ended::WriteFault),
                    Err(PutFault::OutOfMemory) => return Err(AllocError),
                }
            }
            Outcome::End => return Ok(Ended::Done),
            Outcome::No { line, reason } => {
                if let Err(WriteFault) = put_no(out, line, reason) {
                    return Ok(Ended::WriteFault);
                }
                return Ok(Ended::No);
            }
            Outcome::ReadFault => return Ok(Ended::ReadFault),
        }
    }
}
