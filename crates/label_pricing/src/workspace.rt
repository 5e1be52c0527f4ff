// Room for pricing, and what it holds of the team that was priced last.
ghost use Rattle.std.specs.Prelude.{◌≡◌, ◌<◌, ◌+◌, ℕ, ℤ, length, IfOk};
ghost use Rattle.crew_terms.specs.Limits.{IsPermittedVisit, IsRoute, tasks_in, teams_in};
ghost use Rattle.crew_terms.specs.Leaf.{HoldsLocally, IsWorth, rewards, earned};
ghost use Rattle.label_pricing.specs.Best.{IsBest};
ghost use Rattle.label_pricing.specs.Work.{HasPriced, HasWorkRoom};
ghost use Rattle.potentials.specs.Prices.{ArePricesOf};
ghost use Rattle.potentials.specs.Table.{IsTableOf, phi};

use crate::after::first;
use crate::grid::cells_for;
use crate::labels::Cell;
use crate::laws::best_potentials_hold;
use crate::minutes::fill_minutes;
use crate::routes::follow;
use crate::sweep::sweep;
use crate::tables::fill;
use crate::turns::{Turn, end_of, find_turns, start_of};
use crew_instance::Instance;
use crew_terms::{LAST_MINUTE, Visit};
use node_limits::Limits;
use potentials::{Prices, Table};
use std::alloc::{AllocError, Global};
use visit_rewards::Rewards;

// The most tasks of an instance, and the most visits of a route.
const TASKS: usize = 400;

const VISITS: usize = LAST_MINUTE as usize + 1;

/// Room for the pricing of teams, and what it found for the last one.
#[derive(Drop)]
pub(crate) struct Workspace {
    // What the team can do at each task.
    pub(crate) turns: Vec<Turn>,
    // The tasks that it may begin about a minute.
    pub(crate) near: Vec<u32>,
    // The team's first minute, and the one behind its last.
    pub(crate) start: u32,
    pub(crate) end: u32,
    // For each place and minute what can be earned from there on.
    pub(crate) cells: Vec<Cell>,
    // A route that earns the most.
    pub(crate) route: Vec<Visit>,
}

impl Workspace {
    /// Room for any team of the instance.
    pub fn reserve(alloc: Global, instance: &Instance) -> Result<Workspace, AllocError>
        ensures { IfOk result (HasWorkRoom (length instance.now.places)) }
    {
        let turns = Vec::with_capacity(alloc, TASKS)?;
        let near = Vec::with_capacity(alloc, TASKS)?;
        let cells = cells_for(alloc, instance.places())?;
        let route = Vec::with_capacity(alloc, VISITS)?;
        Ok(Workspace {
            turns,
            near,
            start: 0,
            end: 0,
            cells,
            route,
        })
    }

    /// The most that team `k` can earn in the node by these prices, in 1/D of a task, and finds a route that earns it. It
    /// takes no memory.
    pub fn price<R: Rewards>(&mut self, limits: &Limits<'_>, k: u32, prices: &R) -> i64
        requires team { k < teams_in limits.now.limits }
        requires prices { R.AreOf limits.now.limits prices.now }
        requires room { HasWorkRoom (length limits.now.limits.instance.places) self.old }
        ensures worth { IsWorth limits.now.limits k (R.earned limits.now.limits prices.now k) result }
        ensures route { IsRoute limits.now.limits k self.new.route.items }
        ensures rewards { rewards (R.earned limits.now.limits prices.now k) self.new.route.items ≡ result }
        ensures priced { HasPriced limits.now.limits k (R.earned limits.now.limits prices.now k) self.new }
        ensures room { HasWorkRoom (length limits.now.limits.instance.places) self.new }
    {
        find_turns(limits, k, &mut self.turns);
        self.end = end_of(&self.turns);
        self.start = start_of(&self.turns, self.end);
        sweep(
            limits,
            k,
            prices,
            &self.turns,
            &mut self.near,
            &mut self.cells,
            self.start,
            self.end,
        );
        let places = limits.instance().places() as u32;
        let label = first(&self.cells, places, self.start);
        follow(
            limits,
            k,
            prices,
            &self.turns,
            &self.cells,
            self.start,
            self.end,
            label,
            &mut self.route,
        );
        label.value
    }

    /// How many cells were looked at, at most, for the team that was priced last.
    pub fn looks(&self) -> u64 {
        let mut visits = 0u64;
        for turn in &self.turns {
            visits = visits.saturating_add(u64::from(turn.end.saturating_sub(turn.first)));
        }
        visits
    }

    /// Sets the potentials of the team that was priced last: at each visit the most that it can earn from there on. It
    /// takes no memory.
    pub fn fill(&self, limits: &Limits<'_>, k: u32, prices: &Prices, table: &mut Table)
        requires team { k < teams_in limits.now.limits }
        requires prices { ArePricesOf limits.now.limits prices.now }
        requires priced { HasPriced limits.now.limits k (earned prices.now k) self.now }
        requires table { IsTableOf limits.now.limits.instance table.old }
        ensures table { IsTableOf limits.now.limits.instance table.new }
        ensures best { (j t : ℕ) → IsPermittedVisit limits.now.limits k j t
            → IsBest limits.now.limits k (earned prices.now k) j t (phi table.new j t) }
        ensures holds { (worth : ℤ) → IsWorth limits.now.limits k (earned prices.now k) worth
            → HoldsLocally limits.now.limits k (earned prices.now k) (phi table.new) worth }
    {
        best_potentials_hold();
        fill(
            limits,
            k,
            prices,
            &self.turns,
            &self.cells,
            self.start,
            self.end,
            table,
        );
    }

    /// The same where rewards may change with the minute, so that each minute is looked at.
    pub fn fill_minutes<R: Rewards>(
        &self,
        limits: &Limits<'_>,
        k: u32,
        prices: &R,
        table: &mut Table,
    )
        requires team { k < teams_in limits.now.limits }
        requires prices { R.AreOf limits.now.limits prices.now }
        requires priced { HasPriced limits.now.limits k (R.earned limits.now.limits prices.now k)
            self.now }
        requires table { IsTableOf limits.now.limits.instance table.old }
        ensures table { IsTableOf limits.now.limits.instance table.new }
        ensures best { (j t : ℕ) → IsPermittedVisit limits.now.limits k j t
            → IsBest limits.now.limits k (R.earned limits.now.limits prices.now k) j t
            (phi table.new j t) }
        ensures holds { (worth : ℤ)
            → IsWorth limits.now.limits k (R.earned limits.now.limits prices.now k) worth
            → HoldsLocally limits.now.limits k (R.earned limits.now.limits prices.now k)
            (phi table.new) worth }
    {
        best_potentials_hold();
        fill_minutes(
            limits,
            k,
            prices,
            &self.turns,
            &self.cells,
            self.start,
            self.end,
            table,
        );
    }
}
