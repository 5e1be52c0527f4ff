// Routes that earn more than the columns at some prices.
ghost use Rattle.std.specs.Prelude.{◌≡◌, ◌≤◌, ◌<◌, IfErr, OnOk, length};
ghost use Rattle.crew_terms.specs.Leaf.{IsWorth, worth_of, earned};
ghost use Rattle.crew_terms.specs.Limits.{teams_in};
ghost use Rattle.frac_master.specs.Adding.{HaveSameDuals};
ghost use Rattle.label_pricing.specs.Pricing.{HasRoom};
ghost use Rattle.label_pricing.specs.Worths.{AreWorths};
ghost use Rattle.master_run.specs.Along.{Halts, IsOver};
ghost use Rattle.potentials.specs.Prices.{ArePricesOf};
ghost use Rattle.search_terms.specs.Search.{Extends};
ghost use Rattle.node_solver.specs.Meeting.{AreMet, IsMet};

use crate::earnings::is_met;
use column_arena::Columns;
use label_pricing::Pricer;
use master_run::{Halt, Run};
use node_limits::Limits;
use potentials::Prices;

/// Prices team `k`, whose worth is known, and adds its route to the columns and the run, if the team's columns earn less.
fn improve<C: Columns>(
    limits: &Limits<'_>,
    columns: &mut C,
    run: &mut Run,
    pricer: &mut Pricer,
    prices: &Prices,
    k: u32,
    worth: i64,
) -> Result<(), Halt>
    requires over { IsOver limits.now.limits (C.columns columns.old) run.old }
    requires team { k < teams_in limits.now.limits }
    requires prices { ArePricesOf limits.now.limits prices.now }
    requires worth { IsWorth limits.now.limits k (earned prices.now k) worth }
    requires room { HasRoom limits.now.limits.instance pricer.old }
    ensures over { OnOk result (IsOver limits.now.limits (C.columns columns.new) run.new) }
    ensures met { OnOk result (IsMet limits.now.limits (C.columns columns.new) k prices.now worth) }
    ensures pivots { run.new.pivots ≡ run.old.pivots }
    ensures left { run.new.left ≤ run.old.left }
    ensures duals { OnOk result (run.new.left ≡ run.old.left
        → HaveSameDuals run.old.master run.new.master) }
    ensures halts { IfErr result (Halts limits.now.limits run.old.pivots (C.columns columns.new)) }
    ensures extends { Extends limits.now.limits (C.columns columns.old) (C.columns columns.new) }
    ensures room { pricer.new.places ≡ pricer.old.places }
{
    if is_met(limits, run, columns, prices, k, worth) {
        return Ok(());
    }
    let _ = pricer.price(limits, k, prices);
    run.enter(limits, columns, k, pricer.route())
}

/// Adds the route of each team whose columns earn less than its worth.
pub(crate) fn improve_all<C: Columns>(
    limits: &Limits<'_>,
    columns: &mut C,
    run: &mut Run,
    pricer: &mut Pricer,
    prices: &Prices,
    worths: &[i64],
) -> Result<(), Halt>
    requires over { IsOver limits.now.limits (C.columns columns.old) run.old }
    requires prices { ArePricesOf limits.now.limits prices.now }
    requires worths { AreWorths limits.now.limits prices.now worths.now }
    requires room { HasRoom limits.now.limits.instance pricer.old }
    ensures over { OnOk result (IsOver limits.now.limits (C.columns columns.new) run.new) }
    ensures met { OnOk result (AreMet limits.now.limits
        (C.columns columns.new) prices.now worths.now (teams_in limits.now.limits)) }
    ensures pivots { run.new.pivots ≡ run.old.pivots }
    ensures left { run.new.left ≤ run.old.left }
    ensures duals { OnOk result (run.new.left ≡ run.old.left
        → HaveSameDuals run.old.master run.new.master) }
    ensures halts { IfErr result (Halts limits.now.limits run.old.pivots (C.columns columns.new)) }
    ensures extends { Extends limits.now.limits (C.columns columns.old) (C.columns columns.new) }
    ensures room { pricer.new.places ≡ pricer.old.places }
{
    for k in 0..limits.instance().teams() as u32 {
        improve(limits, columns, run, pricer, prices, k, worths[k as usize])?;
    }
    Ok(())
}
