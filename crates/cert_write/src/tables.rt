// The worths and the potentials of the teams in a node, as pricing gives them.
ghost use Rattle.std.specs.Prelude.{◌<◌, List, IfOk};
ghost use Rattle.std.specs.List.{flat_map};
ghost use Rattle.crew_terms.specs.Limits.{teams_in};
ghost use Rattle.crew_terms.specs.Words.{line_text};
ghost use Rattle.crew_io.specs.Puts.{Puts};
ghost use Rattle.dossier_terms.specs.Dossier.{Potentials};
ghost use Rattle.dossier_terms.specs.Lines.{table_lines};
ghost use Rattle.dossier_terms.specs.declared.DossierForm.TheVariants.{Two};
ghost use Rattle.label_pricing.specs.Pricing.{HasRoom};
ghost use Rattle.potentials.specs.Prices.{ArePricesOf};
ghost use Rattle.potentials.specs.Table.{IsTableOf};
ghost use Rattle.cert_write.specs.Dossiers.{ArePricedTables, IsPricedTable};
ghost use Rattle.cert_write.specs.Tables.{IsRoomOf};
ghost use Rattle.dossier_out.specs.Tables.{team_lines};

use crew_io::sink::{Sink, WriteFault};
use dossier_out::put_table;
use label_pricing::{Pricer, one_worth, teams_have_bests};
use node_limits::Limits;
use potentials::{Prices, Table};
use std::alloc::{AllocError, Global};

/// Room for pricing, for the prices of one leaf, and for the potentials of one team.
#[derive(Drop)]
pub(crate) struct Room {
    pub(crate) pricer: Pricer,
    pub(crate) prices: Prices,
    pub(crate) table: Table,
}

impl Room {
    /// Room for the teams and tasks of a node's instance.
    pub(crate) fn reserve(alloc: Global, limits: &Limits<'_>) -> Result<Room, AllocError>
        ensures { IfOk result (IsRoomOf limits.now.limits.instance) }
    {
        let pricer = Pricer::reserve(alloc, limits.instance())?;
        let prices = Prices::zero(alloc, limits)?;
        let table = Table::reserve(alloc, limits.instance())?;
        Ok(Room {
            pricer,
            prices,
            table,
        })
    }
}

/// The lines of a team, with the worth and the potentials that pricing gives.
fn put_team<K: Sink>(
    out: &mut K,
    limits: &Limits<'_>,
    k: u32,
    prices: &Prices,
    pricer: &mut Pricer,
    table: &mut Table,
) -> Result<(), WriteFault>
    requires team { k < teams_in limits.now.limits }
    requires prices { ArePricesOf limits.now.limits prices.now }
    requires room { HasRoom limits.now.limits.instance pricer.old }
    requires table { IsTableOf limits.now.limits.instance table.old }
    ensures puts { (t : Potentials) → IsPricedTable limits.now.limits k prices.now t →
        Puts K.Sink (flat_map line_text (team_lines limits.now.limits k t)) out.old out.new result }
    ensures room { HasRoom limits.now.limits.instance pricer.new }
    ensures table { IsTableOf limits.now.limits.instance table.new }
{
    one_worth();
    teams_have_bests();
    let worth = pricer.price_with(limits, k, prices, table);
    put_table(out, limits, k, worth, table)
}

/// The lines of all teams.
pub(crate) fn put_tables<K: Sink>(
    out: &mut K,
    limits: &Limits<'_>,
    prices: &Prices,
    pricer: &mut Pricer,
    table: &mut Table,
) -> Result<(), WriteFault>
    requires prices { ArePricesOf limits.now.limits prices.now }
    requires room { HasRoom limits.now.limits.instance pricer.old }
    requires table { IsTableOf limits.now.limits.instance table.old }
    ensures puts { (ts : List Potentials) → ArePricedTables limits.now.limits prices.now 0 ts →
        Puts K.Sink (flat_map line_text (table_lines Two limits.now.limits 0 ts)) out.old
        out.new result }
    ensures room { HasRoom limits.now.limits.instance pricer.new }
    ensures table { IsTableOf limits.now.limits.instance table.new }
{
    for k in 0..limits.instance().teams() as u32 {
        put_team(out, limits, k, prices, pricer, table)?;
    }
    Ok(())
}
