// What held columns earn at prices.
ghost use Rattle.std.specs.Prelude.{◌≡◌, ◌≤◌, ◌<◌, ◌≤ℤ◌, ◌<ℤ◌, pos, false, All, IsTrue, length};
ghost use Rattle.column_arena.specs.Columns.{column_of};
ghost use Rattle.crew_terms.specs.Leaf.{earned, rewards};
ghost use Rattle.crew_terms.specs.Limits.{teams_in};
ghost use Rattle.master_run.specs.Along.{IsOver};
ghost use Rattle.potentials.specs.Prices.{ArePricesOf};
ghost use Rattle.share_terms.specs.Shares.{IsRouteIn};
ghost use Rattle.node_solver.specs.Meeting.{IsMet};

use column_arena::Columns;
use crew_terms::Visit;
use master_run::Run;
use node_limits::Limits;
use potentials::Prices;

// What the visits of the team earn together, in 1/D of a task.
fn earnings(prices: &Prices, k: u32, visits: &[Visit]) -> i128
    requires team { k < length prices.now.rho }
    requires tasks { All (λ v. v.task < length prices.now.pi) visits.now }
    ensures { result ≡ rewards (earned prices.now k) visits.now }
{
    let mut sum = 0i128;
    for visit in visits {
        sum += i128::from(prices.reward(k, visit.task));
    }
    sum
}

// Whether a column that is a route in the node is of the team, and earns so much.
fn earns<C: Columns>(
    limits: &Limits<'_>,
    columns: &C,
    id: usize,
    prices: &Prices,
    k: u32,
    worth: i64,
) -> bool
    requires known { id < length (C.columns columns.now) }
    requires legal { IsRouteIn limits.now.limits (column_of (C.columns columns.now) id) }
    requires team { k < teams_in limits.now.limits }
    requires prices { ArePricesOf limits.now.limits prices.now }
    ensures team { IsTrue result → (column_of (C.columns columns.now) id).team ≡ k }
    ensures enough { IsTrue result → worth ≤ℤ rewards (earned prices.now k)
        (column_of (C.columns columns.now) id).visits }
{
    // It is known from here on that these are limits over an instance.
    let _ = limits.instance();
    if columns.team(id) != k {
        return false;
    }
    earnings(prices, k, columns.visits(id)) >= i128::from(worth)
}

/// Whether the team can earn nothing, or one of its columns in the run earns so much already.
pub(crate) fn is_met<C: Columns>(
    limits: &Limits<'_>,
    run: &Run,
    columns: &C,
    prices: &Prices,
    k: u32,
    worth: i64,
) -> bool
    requires over { IsOver limits.now.limits (C.columns columns.now) run.now }
    requires team { k < teams_in limits.now.limits }
    requires prices { ArePricesOf limits.now.limits prices.now }
    ensures met { IsTrue result → IsMet limits.now.limits
        (C.columns columns.now) k prices.now worth }
    ensures some { result ≡ false → pos 0 <ℤ worth }
{
    if worth <= 0 {
        return true;
    }
    for id in run.ids() {
        if earns(limits, columns, *id, prices, k, worth) {
            return true;
        }
    }
    false
}
