// Prices at rest, which are put to use in any node.
ghost use Rattle.std.specs.Prelude.{◌≡◌, ◌<◌, IfOk};
ghost use Rattle.crew_terms.specs.Leaf.{IsOnRequired};
ghost use Rattle.crew_terms.specs.Limits.{tasks_in};
ghost use Rattle.potentials.specs.Prices.{ArePricesOf};

use crate::mixed::{as_price, is_required};
use node_limits::Limits;
use potentials::Prices;
use std::alloc::{AllocError, Global};

/// The price of a team at a task.
#[derive(Clone, Copy)]
pub(crate) struct PairPrice {
    pub(crate) team: u32,
    pub(crate) task: u32,
    pub(crate) price: i64,
}

/// Prices of tasks, by their numbers, and of pairs.
#[derive(Drop)]
pub(crate) struct RestPrices {
    tasks: Vec<i64>,
    pairs: Vec<PairPrice>,
}

impl RestPrices {
    /// The prices of a node; AllocError where there is no memory.
    pub(crate) fn of(
        alloc: Global,
        limits: &Limits<'_>,
        prices: &Prices,
    ) -> Result<RestPrices, AllocError>
        requires { ArePricesOf limits.now.limits prices.now }
    {
        let mut rest = RestPrices {
            tasks: Vec::new(alloc),
            pairs: Vec::new(alloc),
        };
        for task in 0..limits.instance().tasks() as u32 {
            rest.tasks.push(prices.pi(task))?;
            rest.add_pairs(limits, prices, task)?;
        }
        Ok(rest)
    }

    // Adds the prices of the pairs of the task that the node requires.
    fn add_pairs(
        &mut self,
        limits: &Limits<'_>,
        prices: &Prices,
        task: u32,
    ) -> Result<(), AllocError>
        requires prices { ArePricesOf limits.now.limits prices.now }
        requires task { task < tasks_in limits.now.limits }
    {
        for team in 0..limits.instance().teams() as u32 {
            if is_required(limits, team, task) {
                let price = prices.rho(team, task);
                self.pairs.push(PairPrice { team, task, price })?;
            }
        }
        Ok(())
    }

    // The price of a task that must be done, or that may be left.
    fn of_task(&self, task: u32, is_required: bool) -> i64 {
        let price = self.tasks.get(task as usize).copied().unwrap_or(0);
        if is_required { price } else { price.max(0) }
    }

    /// The prices in a node: those of pairs that it doesn't require are left out, and a task that it doesn't require has no
    /// negative price. AllocError where there is no memory.
    pub(crate) fn at(&self, alloc: Global, limits: &Limits<'_>) -> Result<Prices, AllocError>
        ensures prices { IfOk result (ArePricesOf limits.now.limits) }
        ensures required { IfOk result (IsOnRequired limits.now.limits) }
    {
        let mut prices = Prices::zero(alloc, limits)?;
        self.put_tasks(limits, &mut prices);
        for pair in &self.pairs {
            put_pair(limits, *pair, &mut prices);
        }
        Ok(prices)
    }

    // Sets the prices of the tasks.
    fn put_tasks(&self, limits: &Limits<'_>, prices: &mut Prices)
        requires prices { ArePricesOf limits.now.limits prices.old }
        requires required { IsOnRequired limits.now.limits prices.old }
        ensures prices { ArePricesOf limits.now.limits prices.new }
        ensures required { IsOnRequired limits.now.limits prices.new }
    {
        for task in 0..limits.instance().tasks() as u32 {
            let is_required = limits.required(task) > 0;
            prices.set_pi(task, as_price(self.of_task(task, is_required)));
        }
    }
}

// Sets the price of a pair, if the node requires it.
fn put_pair(limits: &Limits<'_>, pair: PairPrice, prices: &mut Prices)
    requires prices { ArePricesOf limits.now.limits prices.old }
    requires required { IsOnRequired limits.now.limits prices.old }
    ensures prices { ArePricesOf limits.now.limits prices.new }
    ensures required { IsOnRequired limits.now.limits prices.new }
{
    let PairPrice { team, task, price } = pair;
    let instance = limits.instance();
    if (team as usize) < instance.teams()
        && (task as usize) < instance.tasks()
        && is_required(limits, team, task)
    {
        prices.set_rho(team, task, as_price(price));
    }
}
