// Weights of tasks for a search, from prices.
ghost use Rattle.std.specs.Prelude.{◌≡◌, ◌≤◌, ◌<◌, ℕ, length, slice_index, IfOk};
ghost use Rattle.crew_terms.specs.Instance.{task_of};
ghost use Rattle.crew_terms.specs.Leaf.{pi_of};
ghost use Rattle.crew_terms.specs.Rules.{IsTeamCount};
ghost use Rattle.plan_search.specs.Weights.{weight_at};

use crew_instance::Instance;
use crew_terms::D;
use potentials::Prices;
use std::alloc::{AllocError, Global};

/// How much more a task weighs at price 0 than at the price of one task, shared by its teams.
pub const WEIGHT_OF_PRICES: u64 = 20;

// The weight of a task of so many teams at a price.
fn weight_at(teams: u32, price: i64) -> u32
    requires { IsTeamCount teams }
    ensures { result ≡ weight_at teams price }
{
    let share = u64::from(D / teams);
    let left = if price < 0 {
        share
    } else {
        share.saturating_sub(price as u64)
    };
    1 + (WEIGHT_OF_PRICES * left / share) as u32
}

/// The weights of all tasks at these prices, for a search: 1 where the price is what one task is worth to each of its teams,
/// and up to 1 + `WEIGHT_OF_PRICES` where it is 0. So what the prices say is hard to serve goes out first for other tasks.
/// AllocError where there is no memory.
pub fn weights_of(
    alloc: Global,
    instance: &Instance,
    prices: &Prices,
) -> Result<Vec<u32>, AllocError>
    requires { length prices.now.pi ≡ length instance.now.tasks }
    ensures count { IfOk result (λ weights. length weights.items ≡ length instance.now.tasks) }
    ensures weights { IfOk result (λ weights. (j : ℕ) → j < length instance.now.tasks
        → slice_index weights.items j ≡ weight_at (task_of instance.now j).teams
        (pi_of prices.now j)) }
{
    let mut weights = Vec::with_capacity(alloc, instance.tasks())?;
    for j in 0..instance.tasks() as u32 {
        weights.push(weight_at(instance.task(j).teams, prices.pi(j)))?;
    }
    Ok(weights)
}
