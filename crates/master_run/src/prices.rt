// The prices of a run's optimum, rounded.
ghost use Rattle.std.specs.Prelude.{◌≡◌, ◌<◌, ◌↔◌, ℕ, List, Contains, IfErr, IfOk, IsTrue, OnOk};
ghost use Rattle.crew_terms.specs.Leaf.{IsOnRequired, IsPrice};
ghost use Rattle.crew_terms.specs.Limits.{Limits as NodeLimits, Route, pair_of, tasks_in, teams_in};
ghost use Rattle.potentials.specs.Prices.{ArePricesOf};
ghost use Rattle.search_terms.specs.Earned.{AreRounded};
ghost use Rattle.search_terms.specs.Opening.{places};
ghost use Rattle.master_run.specs.Along.{Halts, IsOver};
ghost use Rattle.master_run.specs.Rounding.{AreTasksRounded, IsPairRounded, IsRoundedAt, KeepsRounded};

use crate::halt::Halt;
use crate::run::Run;
use crew_terms::Pair;
use frac_master::round_price;
use master_laws::{lists_are_runs, places_are};
use node_limits::Limits;
use potentials::Prices;
use search_terms::Place;
use std::alloc::Global;

// Whether the node requires the pair.
fn is_required(limits: &Limits<'_>, k: u32, j: u32) -> bool
    requires team { k < teams_in limits.now.limits }
    requires task { j < tasks_in limits.now.limits }
    ensures { IsTrue result ↔ (pair_of limits.now.limits k j ≡ Pair.Required) }
{
    matches!(limits.pair(k, j), Pair::Required)
}

impl Run {
    // The price of task `j`, rounded.
    fn price(&self, j: u32) -> Result<i64, Halt>
        requires { Contains self.now.master.places (Place.Shortage j) }
        ensures range { IfOk result IsPrice }
        ensures rounded { (n : NodeLimits) → self.now.master.places ≡ places n →
            IfOk result (IsRoundedAt n self.now.master.rows (Place.Shortage j)) }
        ensures halts { (n : NodeLimits) (columns : List Route) → IsOver n columns self.now
            → IfErr result (Halts n self.now.pivots columns) }
    {
        lists_are_runs();
        let (num, den) = self.master.price(j)?;
        Ok(round_price(num, den))
    }

    // The extra of team `k` at task `j`, where it is required, rounded.
    fn extra(&self, k: u32, j: u32) -> Result<i64, Halt>
        requires { Contains self.now.master.places (Place.Missed k j) }
        ensures range { IfOk result IsPrice }
        ensures rounded { (n : NodeLimits) → self.now.master.places ≡ places n →
            IfOk result (IsRoundedAt n self.now.master.rows (Place.Missed k j)) }
        ensures halts { (n : NodeLimits) (columns : List Route) → IsOver n columns self.now
            → IfErr result (Halts n self.now.pivots columns) }
    {
        lists_are_runs();
        let (num, den) = self.master.extra(k, j)?;
        Ok(round_price(num, den))
    }

    // Sets the prices of the tasks.
    fn round_tasks(&self, limits: &Limits<'_>, prices: &mut Prices) -> Result<(), Halt>
        requires places { self.now.master.places ≡ places limits.now.limits }
        requires shape { ArePricesOf limits.now.limits prices.old }
        requires required { IsOnRequired limits.now.limits prices.old }
        ensures shape { ArePricesOf limits.now.limits prices.new }
        ensures required { IsOnRequired limits.now.limits prices.new }
        ensures rounded { OnOk result (AreTasksRounded limits.now.limits self.now.master.rows
            prices.new (tasks_in limits.now.limits)) }
        ensures halts { (columns : List Route) → IsOver limits.now.limits columns self.now →
            IfErr result (Halts limits.now.limits self.now.pivots columns) }
    {
        places_are();
        for j in 0..limits.instance().tasks() as u32 {
            let price = self.price(j)?;
            prices.set_pi(j, price);
        }
        Ok(())
    }

    // Sets the extra of a pair, if it is required.
    fn round_pair(
        &self,
        limits: &Limits<'_>,
        k: u32,
        j: u32,
        prices: &mut Prices,
    ) -> Result<(), Halt>
        requires team { k < teams_in limits.now.limits }
        requires task { j < tasks_in limits.now.limits }
        requires places { self.now.master.places ≡ places limits.now.limits }
        requires shape { ArePricesOf limits.now.limits prices.old }
        requires required { IsOnRequired limits.now.limits prices.old }
        ensures shape { ArePricesOf limits.now.limits prices.new }
        ensures required { IsOnRequired limits.now.limits prices.new }
        ensures here { OnOk result (IsPairRounded limits.now.limits self.now.master.rows
            prices.new k j) }
        ensures keeps { KeepsRounded limits.now.limits self.now.master.rows prices.old prices.new }
        ensures halts { (columns : List Route) → IsOver limits.now.limits columns self.now →
            IfErr result (Halts limits.now.limits self.now.pivots columns) }
    {
        places_are();
        // It is known from here on that these are limits, and that each team has as many prices as there are tasks.
        let _ = limits.instance();
        let _ = prices.tasks();
        if is_required(limits, k, j) {
            let extra = self.extra(k, j)?;
            prices.set_rho(k, j, extra);
        }
        Ok(())
    }

    // Sets the extras of a team.
    fn round_team(&self, limits: &Limits<'_>, k: u32, prices: &mut Prices) -> Result<(), Halt>
        requires team { k < teams_in limits.now.limits }
        requires places { self.now.master.places ≡ places limits.now.limits }
        requires shape { ArePricesOf limits.now.limits prices.old }
        requires required { IsOnRequired limits.now.limits prices.old }
        ensures shape { ArePricesOf limits.now.limits prices.new }
        ensures required { IsOnRequired limits.now.limits prices.new }
        ensures here { OnOk result ((j : ℕ) → j < tasks_in limits.now.limits
            → IsPairRounded limits.now.limits self.now.master.rows prices.new k j) }
        ensures keeps { KeepsRounded limits.now.limits self.now.master.rows prices.old prices.new }
        ensures halts { (columns : List Route) → IsOver limits.now.limits columns self.now →
            IfErr result (Halts limits.now.limits self.now.pivots columns) }
    {
        for j in 0..limits.instance().tasks() as u32 {
            self.round_pair(limits, k, j, prices)?;
        }
        Ok(())
    }

    // Sets the extras of all teams.
    fn round_teams(&self, limits: &Limits<'_>, prices: &mut Prices) -> Result<(), Halt>
        requires places { self.now.master.places ≡ places limits.now.limits }
        requires shape { ArePricesOf limits.now.limits prices.old }
        requires required { IsOnRequired limits.now.limits prices.old }
        ensures shape { ArePricesOf limits.now.limits prices.new }
        ensures required { IsOnRequired limits.now.limits prices.new }
        ensures here { OnOk result ((k j : ℕ) → k < teams_in limits.now.limits
            → j < tasks_in limits.now.limits →
            IsPairRounded limits.now.limits self.now.master.rows prices.new k j) }
        ensures keeps { KeepsRounded limits.now.limits self.now.master.rows prices.old prices.new }
        ensures halts { (columns : List Route) → IsOver limits.now.limits columns self.now →
            IfErr result (Halts limits.now.limits self.now.pivots columns) }
    {
        for k in 0..limits.instance().teams() as u32 {
            self.round_team(limits, k, prices)?;
        }
        Ok(())
    }

    /// The prices and extras of the optimum, rounded down to whole multiples of 1/D and cut off at the greatest price.
    pub fn prices(&self, alloc: Global, limits: &Limits<'_>) -> Result<Prices, Halt>
        requires { self.now.master.places ≡ places limits.now.limits }
        ensures shape { IfOk result (ArePricesOf limits.now.limits) }
        ensures rounded { IfOk result (AreRounded limits.now.limits self.now.master.rows) }
        ensures halts { (columns : List Route) → IsOver limits.now.limits columns self.now →
            IfErr result (Halts limits.now.limits self.now.pivots columns) }
    {
        places_are();
        let mut prices = Prices::zero(alloc, limits)?;
        self.round_tasks(limits, &mut prices)?;
        self.round_teams(limits, &mut prices)?;
        Ok(prices)
    }
}
