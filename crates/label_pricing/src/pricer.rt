// Pricing of one team after the other, in room that is taken once.
ghost use Rattle.std.specs.Prelude.{◌≡◌, ◌<◌, ◌↔◌, ◌≤◌, ℕ, length, IfOk, OnErr};
ghost use Rattle.crew_terms.specs.Leaf.{HoldsLocally, IsOnRequired, IsWorth, Proves, bound_of, rewards, earned};
ghost use Rattle.crew_terms.specs.Limits.{IsPermittedVisit, IsRoute, tasks_in, teams_in};
ghost use Rattle.label_pricing.specs.Best.{IsBest};
ghost use Rattle.label_pricing.specs.Pricing.{HasRoom};
ghost use Rattle.label_pricing.specs.Worths.{AreWorths};
ghost use Rattle.potentials.specs.Prices.{ArePricesOf};
ghost use Rattle.potentials.specs.Table.{IsTableOf, phi};
ghost use Rattle.search_terms.specs.Proven.{IsProvedCount, PricesProve};

use crate::proved::{Proved, find_worths, most_proved};
use crate::visits::Visits;
use crate::workspace::Workspace;
use crate::worths::worths_decide;
use crew_instance::Instance;
use crew_terms::{MOST_TEAMS, Visit};
use node_limits::Limits;
use potentials::{Prices, Table, bound};
use std::alloc::{AllocError, Global};
use std::marker::Model;
use visit_rewards::Rewards;

/// Room for the pricing of teams, taken once for an instance, with the route and the worths that were found last.
///
/// In contracts: for how many places there is room, that route and those worths.
#[derive(Drop)]
pub struct Pricer {
    places: usize,
    work: Workspace,
    // For each team, in this order.
    worths: Vec<i64>,
    looks: u64,
}

impl Model for Pricer {
    ghost use Rattle.label_pricing.specs.Pricing.{Pricing};

    ghost Value = { Pricing };

    ghost use Rattle.label_pricing.specs.Kept.{kept, IsKept};

    ghost view = { kept };

    ghost invariant = { IsKept };
}

impl Pricer {
    /// Room for any team of the instance; AllocError where there is no memory.
    pub fn reserve(alloc: Global, instance: &Instance) -> Result<Pricer, AllocError>
        ensures { IfOk result (HasRoom instance.now) }
    {
        let work = Workspace::reserve(alloc, instance)?;
        let worths = Vec::with_capacity(alloc, MOST_TEAMS)?;
        Ok(Pricer {
            places: instance.places(),
            work,
            worths,
            looks: 0,
        })
    }

    /// The worth of team `k` in the node: the most that it can earn by these prices, in 1/D of a task. A route that earns
    /// it is found, and the worths that were found last stay. It takes no memory.
    pub fn price(&mut self, limits: &Limits<'_>, k: u32, prices: &Prices) -> i64
        requires team { k < teams_in limits.now.limits }
        requires prices { ArePricesOf limits.now.limits prices.now }
        requires room { HasRoom limits.now.limits.instance self.old }
        ensures worth { IsWorth limits.now.limits k (earned prices.now k) result }
        ensures route { IsRoute limits.now.limits k self.new.route }
        ensures rewards { rewards (earned prices.now k) self.new.route ≡ result }
        ensures worths { self.new.worths ≡ self.old.worths }
        ensures room { self.new.places ≡ self.old.places }
    {
        let worth = self.work.price(limits, k, prices);
        self.looks = self.looks.saturating_add(self.work.looks());
        worth
    }

    /// The same, with the potentials of the team: at each visit the most that it can earn from there on.
    pub fn price_with(
        &mut self,
        limits: &Limits<'_>,
        k: u32,
        prices: &Prices,
        table: &mut Table,
    ) -> i64
        requires team { k < teams_in limits.now.limits }
        requires prices { ArePricesOf limits.now.limits prices.now }
        requires room { HasRoom limits.now.limits.instance self.old }
        requires table { IsTableOf limits.now.limits.instance table.old }
        ensures table { IsTableOf limits.now.limits.instance table.new }
        ensures holds { HoldsLocally limits.now.limits k (earned prices.now k)
            (phi table.new) result }
        ensures best { (j t : ℕ) → IsPermittedVisit limits.now.limits k j t
            → IsBest limits.now.limits k (earned prices.now k) j t (phi table.new j t) }
        ensures worth { IsWorth limits.now.limits k (earned prices.now k) result }
        ensures route { IsRoute limits.now.limits k self.new.route }
        ensures rewards { rewards (earned prices.now k) self.new.route ≡ result }
        ensures worths { self.new.worths ≡ self.old.worths }
        ensures room { self.new.places ≡ self.old.places }
    {
        let worth = self.work.price(limits, k, prices);
        self.looks = self.looks.saturating_add(self.work.looks());
        self.work.fill(limits, k, prices, table);
        worth
    }

    /// The worth of team `k` in the node by rewards of any kind, in 1/D of a task. A route that earns it is found, and the
    /// worths that were found last stay. It takes no memory.
    pub fn price_rewards<R: Rewards>(&mut self, limits: &Limits<'_>, k: u32, prices: &R) -> i64
        requires team { k < teams_in limits.now.limits }
        requires prices { R.AreOf limits.now.limits prices.now }
        requires room { HasRoom limits.now.limits.instance self.old }
        ensures worth { IsWorth limits.now.limits k (R.earned limits.now.limits prices.now k)
            result }
        ensures route { IsRoute limits.now.limits k self.new.route }
        ensures rewards { rewards (R.earned limits.now.limits prices.now k) self.new.route
            ≡ result }
        ensures worths { self.new.worths ≡ self.old.worths }
        ensures room { self.new.places ≡ self.old.places }
    {
        let worth = self.work.price(limits, k, prices);
        self.looks = self.looks.saturating_add(self.work.looks());
        worth
    }

    /// The same, with the potentials of the team: at each visit the most that it can earn from there on. Since rewards may
    /// change with the minute, each minute is looked at.
    pub fn price_rewards_with<R: Rewards>(
        &mut self,
        limits: &Limits<'_>,
        k: u32,
        prices: &R,
        table: &mut Table,
    ) -> i64
        requires team { k < teams_in limits.now.limits }
        requires prices { R.AreOf limits.now.limits prices.now }
        requires room { HasRoom limits.now.limits.instance self.old }
        requires table { IsTableOf limits.now.limits.instance table.old }
        ensures table { IsTableOf limits.now.limits.instance table.new }
        ensures holds { HoldsLocally limits.now.limits k
            (R.earned limits.now.limits prices.now k) (phi table.new) result }
        ensures worth { IsWorth limits.now.limits k (R.earned limits.now.limits prices.now k)
            result }
        ensures route { IsRoute limits.now.limits k self.new.route }
        ensures rewards { rewards (R.earned limits.now.limits prices.now k) self.new.route
            ≡ result }
        ensures worths { self.new.worths ≡ self.old.worths }
        ensures room { self.new.places ≡ self.old.places }
    {
        let worth = self.work.price(limits, k, prices);
        self.looks = self.looks.saturating_add(self.work.looks());
        self.work.fill_minutes(limits, k, prices, table);
        worth
    }

    /// The route that was found last.
    pub fn route(&self) -> &[Visit]
        ensures { result.now ≡ self.now.route }
    {
        &self.work.route
    }

    /// The route that was found last, without the room. It takes no memory.
    pub fn into_route(self) -> Visits
        ensures { result ≡ self.route }
    {
        Visits::of(self.work.route)
    }

    /// What the prices prove in the node. Each team is priced, but one only of those that are alike. It takes no memory.
    pub fn proved(&mut self, limits: &Limits<'_>, prices: &Prices) -> Proved
        requires prices { ArePricesOf limits.now.limits prices.now }
        requires priced { IsOnRequired limits.now.limits prices.now }
        requires room { HasRoom limits.now.limits.instance self.old }
        ensures worths { AreWorths limits.now.limits prices.now self.new.worths }
        ensures bound { result.bound ≡ bound_of limits.now.limits prices.now self.new.worths }
        ensures count { IsProvedCount limits.now.limits prices.now result.count }
        ensures decides { (l : ℕ) → l ≤ tasks_in limits.now.limits
            → PricesProve limits.now.limits prices.now l ↔ Proves result.bound l }
        ensures room { self.new.places ≡ self.old.places }
    {
        worths_decide();
        // It is known from here on that the limits are of an instance, and the prices in their range.
        let _ = limits.instance();
        let _ = prices.tasks();
        find_worths(limits, prices, &mut self.work, &mut self.worths);
        let bound = bound(limits, prices, &self.worths);
        Proved {
            bound,
            count: most_proved(limits, bound),
        }
    }

    /// How many cells were looked at, at most, for the worths of single teams since the room was taken: a measure of work.
    pub fn looks(&self) -> u64 {
        self.looks
    }

    /// The worths that were found last for what prices prove, team by team.
    pub fn worths(&self) -> &[i64]
        ensures { result.now ≡ self.now.worths }
    {
        &self.worths
    }
}

/// The worth of a team, in 1/D of a task, and a route that earns it.
#[derive(Drop)]
pub struct Priced {
    pub worth: i64,
    pub route: Visits,
}

/// Prices team `k` in the node: the table holds locally with the worth, which the route earns. After want of memory the
/// table is as it was.
pub fn price_team(
    alloc: Global,
    limits: &Limits<'_>,
    k: u32,
    prices: &Prices,
    table: &mut Table,
) -> Result<Priced, AllocError>
    requires team { k < teams_in limits.now.limits }
    requires prices { ArePricesOf limits.now.limits prices.now }
    requires table { IsTableOf limits.now.limits.instance table.old }
    ensures table { IsTableOf limits.now.limits.instance table.new }
    ensures err { OnErr result (table.new ≡ table.old) }
    ensures holds { IfOk result (λ found. HoldsLocally limits.now.limits k (earned prices.now k)
        (phi table.new) found.worth) }
    ensures route { IfOk result (λ found. IsRoute limits.now.limits k found.route) }
    ensures rewards { IfOk result (λ found.
        rewards (earned prices.now k) found.route ≡ found.worth) }
    ensures worth { IfOk result (λ found.
        IsWorth limits.now.limits k (earned prices.now k) found.worth) }
{
    let mut pricer = Pricer::reserve(alloc, limits.instance())?;
    let worth = pricer.price_with(limits, k, prices, table);
    Ok(Priced {
        worth,
        route: pricer.into_route(),
    })
}
