// The sums of the shares of a cause, as its lines come.
ghost use Rattle.std.specs.Prelude.{◌≡◌, ◌≤◌, ◌<◌, ◌^◌, ◌++◌, [], ◌∷◌, ℕ, List, pos, length, IfOk};
ghost use Rattle.crew_num.specs.Mixed.{IsMixed, value};
ghost use Rattle.crew_terms.specs.Limits.{Limits as NodeLimits, tasks_in, teams_in};
ghost use Rattle.share_terms.specs.Shares.{IsRouteIn, Share};
ghost use Rattle.share_check.specs.CellSums.{visit_at};
ghost use Rattle.share_check.specs.Summed.{HasRoom, IsSharesOf, IsSumsOf};

use crate::cells::{NOTHING, add_visits, clear, share_of, with_share};
use crew_num::Mixed;
use crew_terms::Visit;
use node_limits::Limits;
use route_terms::Route;
use std::alloc::{AllocError, Global};

/// The sums of some shares: of the shares themselves, and of their visits to each task.
#[derive(Drop)]
pub(crate) struct Sums {
    pub(crate) share: Mixed,
    pub(crate) visits: Vec<Mixed>,
}

impl Sums {
    /// Takes room for so many tasks.
    fn open(alloc: Global, tasks: usize) -> Result<Sums, AllocError>
        ensures { IfOk result (λ s. length s.visits.items ≡ tasks) }
    {
        let visits = vec![in alloc; NOTHING; tasks]?;
        Ok(Sums {
            share: NOTHING,
            visits,
        })
    }

    /// Makes them the sums of no shares.
    fn clear(&mut self)
        ensures none { (n whole : ℕ) → 1 ≤ whole → length self.old.visits.items ≡ n
            → IsSumsOf n whole [] self.new }
    {
        self.share = NOTHING;
        clear(&mut self.visits);
    }

    /// Adds a share of a route with these visits.
    fn add(&mut self, visits: &[Visit], share: Mixed, whole: u128)
        requires whole { whole < 2 ^ 127 }
        requires sums { (n : ℕ) × (shares : List Share) × IsSumsOf n whole shares self.old }
        requires known { (i : ℕ) → i < length visits.now
            → (visit_at visits.now i).task < length self.old.visits.items }
        requires share { IsMixed share whole (pos 1) }
        ensures sums { (n : ℕ) (shares : List Share) (r : Share) → IsSumsOf n whole shares self.old
            → r.route.visits ≡ visits.now
            → value share whole ≡ pos r.parts → IsSumsOf n whole (shares ++ r ∷ []) self.new }
    {
        self.share = with_share(self.share, share, whole);
        add_visits(&mut self.visits, visits, share, whole);
    }
}

/// The sums of the shares of a cause so far: of all, and of each team's.
#[derive(Drop)]
pub struct ShareSums {
    pub(crate) all: Sums,
    pub(crate) teams: Vec<Sums>,
}

impl ShareSums {
    /// Takes room for the shares of any cause of a node of the instance.
    pub fn open(alloc: Global, limits: &Limits<'_>) -> Result<ShareSums, AllocError>
        ensures { IfOk result (HasRoom limits.now.limits) }
    {
        let tasks = limits.instance().tasks();
        let all = Sums::open(alloc, tasks)?;
        let mut teams = Vec::new(alloc);
        for _ in 0..limits.instance().teams() {
            teams.push(Sums::open(alloc, tasks)?)?;
        }
        Ok(ShareSums { all, teams })
    }

    /// Makes them the sums of no shares.
    pub fn begin(&mut self)
        ensures none { (n : NodeLimits) (whole : ℕ) → 1 ≤ whole → HasRoom n self.old
            → IsSharesOf n whole [] self.new }
    {
        self.all.clear();
        for k in 0..self.teams.len() {
            self.teams[k].clear();
        }
    }

    /// Adds so many parts of a route.
    pub fn add(&mut self, route: &Route<'_>, parts: u128, whole: u128)
        requires some { 1 ≤ whole }
        requires whole { whole < 2 ^ 127 }
        requires parts { parts ≤ whole }
        requires sums { (n : NodeLimits) × (shares : List Share)
            × IsSharesOf n whole shares self.old × IsRouteIn n route.now }
        ensures sums { (n : NodeLimits) (shares : List Share) → IsSharesOf n whole shares self.old
            → IsSharesOf n whole
            (shares ++ record { route = route.now; parts = parts } ∷ []) self.new }
    {
        let share = share_of(parts, whole);
        self.all.add(route.visits(), share, whole);
        self.teams[route.team() as usize].add(route.visits(), share, whole);
    }
}
