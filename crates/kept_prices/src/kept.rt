// Prices at rest.
ghost use Rattle.std.specs.Prelude.{◌≡◌, ◌<◌, ◌^◌, length, IfOk};
ghost use Rattle.crew_terms.specs.Limits.{tasks_in};
ghost use Rattle.potentials.specs.Prices.{ArePrices, ArePricesOf};
ghost use Rattle.kept_prices.specs.Rows.{AreRows, rows_in};

use crate::rows::{put_row, put_tasks, row_of, tasks_of};
use node_limits::Limits;
use potentials::Prices;
use std::alloc::{AllocError, Global};
use std::marker::Model;
use std::rc::Rc;

/// The prices of the tasks, and for each team a row for all tasks, or none.
#[derive(Drop)]
pub(crate) struct Rows {
    tasks: Vec<i64>,
    teams: Vec<Vec<i64>>,
}

/// Prices of a node at rest: those of the tasks, and those of the teams that have some of their own. So they take room for
/// the tasks and for such teams alone, where `Prices` have room for all. Who shares them takes no room for them again.
#[derive(Drop)]
pub struct KeptPrices {
    rows: Rc<Rows>,
}

impl Model for KeptPrices {
    ghost use Rattle.crew_terms.specs.Leaf.{Prices as TaskPrices};

    ghost Value = { TaskPrices };

    ghost use Rattle.kept_prices.specs.Kept.{kept_prices, IsKept};

    ghost view = { kept_prices };

    ghost invariant = { IsKept };
}

/// A row for each team.
fn rows_of(alloc: Global, limits: &Limits<'_>, prices: &Prices) -> Result<Vec<Vec<i64>>, AllocError>
    requires { ArePricesOf limits.now.limits prices.now }
    ensures rows { IfOk result (λ rows. rows_in (tasks_in limits.now.limits) rows.items
        ≡ prices.now.rho) }
    ensures are { IfOk result (λ rows. AreRows (tasks_in limits.now.limits) rows.items) }
{
    let mut rows = Vec::with_capacity(alloc, limits.instance().teams())?;
    for k in 0..limits.instance().teams() as u32 {
        rows.push(row_of(alloc, limits, prices, k)?)?;
    }
    Ok(rows)
}

/// Puts the prices of all teams in the place of others.
fn put_rows(prices: &mut Prices, teams: &[Vec<i64>])
    requires count { length teams.now ≡ length prices.old.rho }
    requires few { length teams.now < 2 ^ 32 }
    requires few_tasks { length prices.old.pi < 2 ^ 32 }
    requires rows { AreRows (length prices.old.pi) teams.now }
    ensures { prices.new ≡ record prices.old { rho = rows_in (length prices.old.pi) teams.now } }
{
    for k in 0..teams.len() as u32 {
        put_row(prices, k, &teams[k as usize]);
    }
}

impl KeptPrices {
    /// The prices, at rest. AllocError where there is no memory.
    pub fn of(alloc: Global, limits: &Limits<'_>, prices: &Prices) -> Result<KeptPrices, AllocError>
        requires { ArePricesOf limits.now.limits prices.now }
        ensures { IfOk result (λ kept. kept ≡ prices.now) }
    {
        // The prices are in their range.
        let _ = prices.tasks();
        let tasks = tasks_of(alloc, limits, prices)?;
        let teams = rows_of(alloc, limits, prices)?;
        let rows = Rc::new(alloc, Rows { tasks, teams })?;
        Ok(KeptPrices { rows })
    }

    /// The same prices once more, which share their room. AllocError where they are shared too often.
    pub fn share(&self) -> Result<KeptPrices, AllocError>
        ensures same { IfOk result (λ kept. kept ≡ self.now) }
        ensures limits { ArePrices self.now }
    {
        let rows = self.rows.clone()?;
        Ok(KeptPrices { rows })
    }

    /// Puts the prices in the place of others of the node. It takes no memory.
    pub fn put(&self, limits: &Limits<'_>, prices: &mut Prices)
        requires own { ArePricesOf limits.now.limits self.now }
        requires room { ArePricesOf limits.now.limits prices.old }
        ensures { prices.new ≡ self.now }
    {
        // An instance has few tasks and few teams.
        let _ = (limits.instance().tasks(), limits.instance().teams());
        let rows = self.rows.as_ref();
        put_tasks(prices, &rows.tasks);
        put_rows(prices, &rows.teams);
    }

    /// The prices, in room of their own. AllocError where there is no memory.
    pub fn prices(&self, alloc: Global, limits: &Limits<'_>) -> Result<Prices, AllocError>
        requires { ArePricesOf limits.now.limits self.now }
        ensures { IfOk result (λ prices. prices ≡ self.now) }
    {
        let mut prices = Prices::zero(alloc, limits)?;
        self.put(limits, &mut prices);
        Ok(prices)
    }
}
