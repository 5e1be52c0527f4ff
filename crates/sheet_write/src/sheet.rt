// A sheet, written from its parts.
ghost use Rattle.std.specs.Prelude.{◌≡◌, ◌≤◌, length};
ghost use Rattle.std.specs.List.{flat_map};
ghost use Rattle.crew_terms.specs.Limits.{root_limits};
ghost use Rattle.crew_terms.specs.Words.{line_text};
ghost use Rattle.crew_io.specs.Puts.{Puts};
ghost use Rattle.label_pricing.specs.Pricing.{HasRoom};
ghost use Rattle.potentials.specs.Table.{IsTableOf};
ghost use Rattle.squeeze_terms.specs.MinutePrices.{AreMinutePrices};
ghost use Rattle.squeeze_terms.specs.declared.TheConstants.{MOST_STEPS};
ghost use Rattle.sheet_write.specs.Given.{given, squeezed};
ghost use Rattle.sheet_write.specs.Sheets.{PutsSheet, WritesSheet, head_lines};

use crate::laws::{proved_sheets_are_good, teams_have_tables};
use crate::prices::put_prices;
use crate::teams::put_teams;
use cert_write::{PutFault, write_instance};
use crew_instance::Instance;
use crew_io::sink::{Sink, WriteFault};
use dossier_out::{number, put_frozen};
use label_pricing::Pricer;
use line_out::{Part, put_line};
use minute_prices::MinutePrices;
use node_limits::Limits;
use potentials::Table;
use price_run::{Squeezed, prices_at};
use squeeze_laws::runs_have_minute_prices;
use std::alloc::Global;

/// What a sheet is written from.
#[derive(Clone, Copy)]
pub struct SheetParts<'a> {
    pub instance: &'a Instance,
    /// The node budget.
    pub nodes: u32,
    /// The number of unassigned tasks that the prices prove.
    pub bound: u32,
    pub prices: &'a MinutePrices,
}

/// The lines before the prices.
fn put_head<K: Sink>(out: &mut K, parts: &SheetParts<'_>) -> Result<(), WriteFault>
    ensures { Puts K.Sink (flat_map line_text (head_lines (given parts.now))) out.old out.new result }
{
    put_line(
        out,
        &[
            Part::Word(b"crew"),
            Part::Word(b"squeeze"),
            Part::Word(b"1"),
        ],
    )?;
    write_instance(out, parts.instance, parts.nodes)?;
    put_frozen(out, parts.instance)?;
    put_line(out, &[Part::Word(b"bound"), number(parts.bound)])
}

/// The lines of the sheet. It takes no memory.
fn put_sheet<K: Sink>(
    out: &mut K,
    parts: &SheetParts<'_>,
    limits: &Limits<'_>,
    pricer: &mut Pricer,
    table: &mut Table,
) -> Result<(), WriteFault>
    requires root { limits.now.limits ≡ root_limits parts.now.instance.now }
    requires prices { AreMinutePrices parts.now.instance.now parts.now.prices.now }
    requires room { HasRoom parts.now.instance.now pricer.old }
    requires table { IsTableOf parts.now.instance.now table.old }
    ensures { PutsSheet K.Sink (given parts.now) out.old out.new result }
{
    proved_sheets_are_good();
    teams_have_tables();
    // It is known from here on that the instance keeps its own limits.
    let _ = parts.instance.tasks();
    put_head(out, parts)?;
    put_prices(out, parts.instance, parts.prices)?;
    put_teams(out, limits, parts.prices, pricer, table)?;
    put_line(out, &[Part::Word(b"end")])
}

/// Writes the sheet of these parts, with the worth of each team and the potentials that pricing gives at the root, one team
/// after another. All memory is taken before anything is written. After a write fault, a front of the sheet was written.
pub fn write_priced_sheet<K: Sink>(
    alloc: Global,
    sink: &mut K,
    parts: &SheetParts<'_>,
) -> Result<(), PutFault>
    requires { AreMinutePrices parts.now.instance.now parts.now.prices.now }
    ensures { WritesSheet K.Sink (given parts.now) sink.old sink.new result }
{
    let limits = Limits::root(alloc, parts.instance)?;
    let mut pricer = Pricer::reserve(alloc, parts.instance)?;
    let mut table = Table::reserve(alloc, parts.instance)?;
    match put_sheet(sink, parts, &limits, &mut pricer, &mut table) {
        Ok(()) => Ok(()),
        Err(WriteFault) => Err(PutFault::WriteFault),
    }
}

/// Writes the sheet of what a price run of the instance handed out: its prices with the greatest bound, and the number that
/// they prove. All memory is taken before anything is written. After a write fault, a front of the sheet was written.
pub fn write_sheet<K: Sink>(
    alloc: Global,
    sink: &mut K,
    instance: &Instance,
    nodes: u32,
    got: &Squeezed,
) -> Result<(), PutFault>
    requires few { got.now.at ≤ MOST_STEPS }
    requires known { got.now.at ≤ length got.now.trace }
    ensures { WritesSheet K.Sink
        (squeezed instance.now nodes got.now.at got.now.l got.now.trace) sink.old sink.new result }
{
    runs_have_minute_prices();
    let prices = prices_at(alloc, instance, &got.trace, got.at)?;
    let parts = SheetParts {
        instance,
        nodes,
        bound: got.l,
        prices: &prices,
    };
    write_priced_sheet(alloc, sink, &parts)
}
