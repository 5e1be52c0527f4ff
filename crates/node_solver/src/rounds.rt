// Rounds of a node's master: prices of its optimum, and routes that earn more at them.
ghost use Rattle.std.specs.Prelude.{◌≡◌, ◌≤◌, IfErr, IfOk};
ghost use Rattle.crew_terms.specs.Limits.{tasks_in};
ghost use Rattle.label_pricing.specs.Pricing.{HasRoom};
ghost use Rattle.master_run.specs.Along.{Halts, IsOver};
ghost use Rattle.potentials.specs.Prices.{ArePricesOf};
ghost use Rattle.search_terms.specs.Search.{Extends};
ghost use Rattle.node_solver.specs.Settled.{IsAnswered};

use crate::improving::improve_all;
use column_arena::Columns;
use label_pricing::Pricer;
use master_run::{Halt, Run};
use node_limits::Limits;
use potentials::Prices;
use std::alloc::Global;

/// Prices that the rounds came to, and the greatest number of tasks that they prove unassigned.
#[derive(Drop)]
pub(crate) struct Answer {
    pub(crate) prices: Prices,
    pub(crate) proved: u32,
}

/// Prices all teams at the prices of the run's optimum, and adds the routes that earn more than the columns, round by
/// round, until the prices prove `now`, or until a round makes no pivot: then its prices are those of the next round
/// too, and no route earns more.
pub(crate) fn rounds<C: Columns>(
    alloc: Global,
    limits: &Limits<'_>,
    now: u32,
    columns: &mut C,
    run: &mut Run,
    pricer: &mut Pricer,
) -> Result<Answer, Halt>
    requires over { IsOver limits.now.limits (C.columns columns.old) run.old }
    requires room { HasRoom limits.now.limits.instance pricer.old }
    ensures answered { IfOk result (λ a. IsAnswered limits.now.limits now
        (C.columns columns.new) run.new a.prices a.proved) }
    ensures shape { IfOk result (λ a. ArePricesOf limits.now.limits a.prices) }
    ensures pivots { run.new.pivots ≡ run.old.pivots }
    ensures halts { IfErr result (Halts limits.now.limits run.old.pivots (C.columns columns.new)) }
    ensures extends { Extends limits.now.limits (C.columns columns.old) (C.columns columns.new) }
{
    'again: loop {
        let prices = run.prices(alloc, limits)?;
        let proved = pricer.proved(limits, &prices).count;
        if proved >= now {
            return Ok(Answer { prices, proved });
        }
        let worths = Vec::from_slice(alloc, pricer.worths())?;
        let left = run.left();
        improve_all(limits, columns, run, pricer, &prices, &worths)?;
        if run.left() == left {
            return Ok(Answer { prices, proved });
        }
    }
}
