// The worths of all teams at some prices, and what their routes say of the way up.
ghost use Rattle.std.specs.Prelude.{◌≡◌, ◌≤◌, ◌<◌, ◌+◌, length, slice_set, All, IfOk, OnOk};
ghost use Rattle.crew_terms.specs.Leaf.{AreInRange, IsOnRequired};
ghost use Rattle.crew_terms.specs.Limits.{IsRoute, Limits as NodeLimits, teams_in};
ghost use Rattle.crew_terms.specs.Rules.{IsInstance};
ghost use Rattle.label_pricing.specs.Pricing.{HasRoom};
ghost use Rattle.potentials.specs.Prices.{ArePricesOf};
ghost use Rattle.price_ascent.specs.Bound.{IsBoundAt};
ghost use Rattle.price_ascent.specs.Classes.{AreFirsts, AreKnownBefore};
ghost use Rattle.price_ascent.specs.Found.{IsFound};

use crate::classes::find_firsts;
use crate::slopes::Slopes;
use crate::trail::{FoundRoute, forget, keep};
use label_pricing::{Pricer, alike_teams_earn_alike};
use node_limits::Limits;
use potentials::{Prices, bound};
use std::alloc::{AllocError, Global};
use std::collections::VecDeque;

/// What prices all teams of a node, one of each class of teams that price alike, and keeps the routes of the last rounds.
#[derive(Drop)]
pub(crate) struct Sight {
    pricer: Pricer,
    // For each team the first that prices alike.
    firsts: Vec<u32>,
    // For each team its worth.
    worths: Vec<i64>,
    routes: VecDeque<FoundRoute>,
}

impl Sight {
    /// Room for the node; AllocError where there is no memory.
    pub(crate) fn reserve(alloc: Global, limits: &Limits<'_>) -> Result<Sight, AllocError>
        ensures room { IfOk result (λ s. HasRoom limits.now.limits.instance s.pricer) }
        ensures firsts { IfOk result (λ s. AreFirsts limits.now.limits s.firsts.items) }
        ensures count { IfOk result (λ s. length s.worths.items ≡ teams_in limits.now.limits) }
        ensures routes { IfOk result (λ s. All (IsFound limits.now.limits) s.routes.items) }
    {
        let pricer = Pricer::reserve(alloc, limits.instance())?;
        let firsts = find_firsts(alloc, limits)?;
        let worths = vec![in alloc; 0; limits.instance().teams()]?;
        Ok(Sight {
            pricer,
            firsts,
            worths,
            routes: VecDeque::new(alloc),
        })
    }

    /// The routes that were found, without the room.
    pub(crate) fn into_routes(self) -> VecDeque<FoundRoute>
        ensures { result ≡ self.routes }
    {
        self.routes
    }

    /// How many cells the pricing of all teams looks at, at most: at each place from each minute of each task.
    pub(crate) fn looks_of_round(&self, limits: &Limits<'_>) -> u64 {
        let mut minutes = 0u64;
        for k in 0..limits.instance().teams() as u32 {
            if self.firsts.get(k as usize) == Some(&k) {
                minutes = minutes.saturating_add(minutes_of(limits, k));
            }
        }
        minutes.saturating_mul(limits.instance().places() as u64)
    }

    // Team `k` has this worth, and earns it by the route that was found last: that is kept as one of this round, and
    // counted in the slopes.
    fn take(
        &mut self,
        alloc: Global,
        k: u32,
        worth: i64,
        round: u32,
        slopes: &mut Slopes,
    ) -> Result<(), AllocError>
        requires team { k < length self.old.worths.items }
        ensures pricer { self.new.pricer ≡ self.old.pricer }
        ensures firsts { self.new.firsts ≡ self.old.firsts }
        ensures worths { self.new.worths.items ≡ slice_set self.old.worths.items k worth }
        ensures routes { (n : NodeLimits) → k < teams_in n → IsRoute n k self.old.pricer.route
            → All (IsFound n) self.old.routes.items
            → OnOk result (All (IsFound n) self.new.routes.items) }
    {
        self.worths[k as usize] = worth;
        let route = self.pricer.route();
        slopes.count(k, route);
        keep(alloc, &mut self.routes, round, k, route)
    }

    // Prices team `h`, the first of its class, for all teams of the class.
    fn look_at(
        &mut self,
        alloc: Global,
        limits: &Limits<'_>,
        h: u32,
        prices: &Prices,
        round: u32,
        slopes: &mut Slopes,
    ) -> Result<(), AllocError>
        requires team { h < teams_in limits.now.limits }
        requires prices { ArePricesOf limits.now.limits prices.now }
        requires required { IsOnRequired limits.now.limits prices.now }
        requires room { HasRoom limits.now.limits.instance self.old.pricer }
        requires firsts { AreFirsts limits.now.limits self.old.firsts.items }
        requires worths { AreKnownBefore limits.now.limits prices.now self.old.firsts.items h
            self.old.worths.items }
        requires routes { All (IsFound limits.now.limits) self.old.routes.items }
        ensures worths { OnOk result (AreKnownBefore limits.now.limits prices.now
            self.old.firsts.items (h + 1) self.new.worths.items) }
        ensures count { length self.new.worths.items ≡ length self.old.worths.items }
        ensures firsts { self.new.firsts ≡ self.old.firsts }
        ensures room { self.new.pricer.places ≡ self.old.pricer.places }
        ensures routes { OnOk result (All (IsFound limits.now.limits) self.new.routes.items) }
    {
        alike_teams_earn_alike();
        let worth = self.pricer.price(limits, h, prices);
        for k in 0..limits.instance().teams() as u32 {
            if self.firsts[k as usize] == h {
                self.take(alloc, k, worth, round, slopes)?;
            }
        }
        Ok(())
    }

    /// The bound of the prices in 1/D of a task; each team's route is kept as one of this round, and counted in the
    /// slopes. AllocError where there is no memory.
    pub(crate) fn look(
        &mut self,
        alloc: Global,
        limits: &Limits<'_>,
        prices: &Prices,
        round: u32,
        slopes: &mut Slopes,
    ) -> Result<i128, AllocError>
        requires prices { ArePricesOf limits.now.limits prices.now }
        requires required { IsOnRequired limits.now.limits prices.now }
        requires room { HasRoom limits.now.limits.instance self.old.pricer }
        requires firsts { AreFirsts limits.now.limits self.old.firsts.items }
        requires count { length self.old.worths.items ≡ teams_in limits.now.limits }
        requires routes { All (IsFound limits.now.limits) self.old.routes.items }
        ensures bound { IfOk result (IsBoundAt limits.now.limits prices.now) }
        ensures range { AreInRange prices.now }
        ensures instance { IsInstance limits.now.limits.instance }
        ensures room { self.new.pricer.places ≡ self.old.pricer.places }
        ensures firsts { self.new.firsts ≡ self.old.firsts }
        ensures count { length self.new.worths.items ≡ length self.old.worths.items }
        ensures routes { OnOk result (All (IsFound limits.now.limits) self.new.routes.items) }
    {
        let _ = prices.tasks();
        slopes.begin(limits);
        forget(&mut self.routes, round);
        for h in 0..limits.instance().teams() as u32 {
            if self.firsts[h as usize] == h {
                self.look_at(alloc, limits, h, prices, round, slopes)?;
            }
        }
        Ok(bound(limits, prices, &self.worths))
    }
}

// At how many minutes team `k` may begin its tasks, taken together.
fn minutes_of(limits: &Limits<'_>, k: u32) -> u64
    requires { k < teams_in limits.now.limits }
{
    let mut minutes = 0u64;
    for j in 0..limits.instance().tasks() as u32 {
        if let Some((first, last)) = limits.minutes(k, j) {
            minutes = minutes.saturating_add(u64::from(last.saturating_sub(first)) + 1);
        }
    }
    minutes
}
