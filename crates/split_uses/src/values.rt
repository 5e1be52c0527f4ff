// What tasks are worth by the prices of a node.
ghost use Rattle.std.specs.Prelude.{◌<◌};
ghost use Rattle.crew_terms.specs.Limits.{tasks_in};
ghost use Rattle.potentials.specs.Prices.{ArePricesOf};

use crate::scale::{ONE, times};
use node_limits::Limits;
use potentials::{D, Prices};

/// What all teams of the task earn together, from none to a whole task.
pub(crate) fn value_of(limits: &Limits<'_>, prices: &Prices, task: u32) -> i128
    requires task { task < tasks_in limits.now.limits }
    requires prices { ArePricesOf limits.now.limits prices.now }
{
    let teams = i128::from(limits.instance().task(task).teams);
    let earned = i128::from(prices.pi(task)).saturating_mul(teams);
    times(earned, ONE, i128::from(D)).max(0).min(ONE)
}
