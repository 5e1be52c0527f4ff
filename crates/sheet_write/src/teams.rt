// The worths and the potentials of the teams, as pricing by minute prices gives them.
ghost use Rattle.std.specs.Prelude.{◌<◌};
ghost use Rattle.crew_terms.specs.Limits.{teams_in};
ghost use Rattle.label_pricing.specs.Pricing.{HasRoom};
ghost use Rattle.potentials.specs.Table.{IsTableOf};
ghost use Rattle.squeeze_terms.specs.MinutePrices.{AreMinutePrices};
ghost use Rattle.sheet_write.specs.Teams.{PutsTeam, PutsTeams};

use crate::laws::teams_have_tables;
use crew_io::sink::{Sink, WriteFault};
use crew_laws::minutes_are_permitted;
use dossier_out::put_table;
use label_pricing::Pricer;
use minute_prices::MinutePrices;
use node_limits::Limits;
use potentials::Table;

/// The lines of team `k`, with the worth and the potentials that pricing gives.
fn put_team<K: Sink>(
    out: &mut K,
    limits: &Limits<'_>,
    k: u32,
    prices: &MinutePrices,
    pricer: &mut Pricer,
    table: &mut Table,
) -> Result<(), WriteFault>
    requires team { k < teams_in limits.now.limits }
    requires prices { AreMinutePrices limits.now.limits.instance prices.now }
    requires room { HasRoom limits.now.limits.instance pricer.old }
    requires table { IsTableOf limits.now.limits.instance table.old }
    ensures puts { PutsTeam K.Sink limits.now.limits prices.now k out.old out.new result }
    ensures room { HasRoom limits.now.limits.instance pricer.new }
    ensures table { IsTableOf limits.now.limits.instance table.new }
{
    minutes_are_permitted();
    let worth = pricer.price_rewards_with(limits, k, prices, table);
    put_table(out, limits, k, worth, table)
}

/// The lines of all teams. They are priced one after another.
pub(crate) fn put_teams<K: Sink>(
    out: &mut K,
    limits: &Limits<'_>,
    prices: &MinutePrices,
    pricer: &mut Pricer,
    table: &mut Table,
) -> Result<(), WriteFault>
    requires prices { AreMinutePrices limits.now.limits.instance prices.now }
    requires room { HasRoom limits.now.limits.instance pricer.old }
    requires table { IsTableOf limits.now.limits.instance table.old }
    ensures { PutsTeams K.Sink limits.now.limits prices.now out.old out.new result }
{
    teams_have_tables();
    for k in 0..limits.instance().teams() as u32 {
        put_team(out, limits, k, prices, pricer, table)?;
    }
    Ok(())
}
