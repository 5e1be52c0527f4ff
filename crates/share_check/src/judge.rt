// Whether the shares that were summed are a fractional choice in the node, and a loose one.
ghost use Rattle.std.specs.Prelude.{◌≡◌, ◌≤◌, ◌<◌, ◌*◌, ◌^◌, true, ℕ, List, pos, length, slice_index_or, IfSome, All, MatchBool, MatchOption};
ghost use Rattle.crew_num.specs.Mixed.{IsMixed, value};
ghost use Rattle.crew_terms.specs.Limits.{Limits as NodeLimits, has_required, tasks_in, teams_in};
ghost use Rattle.crew_terms.specs.Total.{total};
ghost use Rattle.share_terms.specs.Shares.{FractionalChoice, IsRouteIn, Share, pair_gap, parts_of, shares_of, weighed_visits};
ghost use Rattle.share_check.specs.Summed.{IsLooseChoice, IsSharesOf};

use crate::cells::NOTHING;
use crate::gaps::{spare_sum, task_gaps};
use crate::pairs::team_gaps;
use crate::sums::ShareSums;
use crate::value::{is_one_at_most, is_within};
use crew_num::{Mixed, mixed_add};
use line_in::WideNumbers;
use node_limits::Limits;

/// Whether each task with a required pair has no unassigned share.
pub(crate) fn spares_fit(limits: &Limits<'_>, spare: &WideNumbers<'_>) -> bool
    requires { length spare.now ≡ tasks_in limits.now.limits }
    ensures { MatchBool result ((j : ℕ) → j < tasks_in limits.now.limits
        → has_required limits.now.limits j ≡ true → slice_index_or spare.now j 0 ≡ 0)
        (((j : ℕ) → j < tasks_in limits.now.limits → has_required limits.now.limits j ≡ true
        → slice_index_or spare.now j 0 ≡ 0) → ⊥) }
{
    for j in 0..limits.instance().tasks() {
        if spare.get(j) > 0 && limits.required(j as u32) > 0 {
            return false;
        }
    }
    true
}

impl ShareSums {
    /// Whether no team has more than one whole.
    fn teams_fit(&self, whole: u128) -> bool
        requires { 1 ≤ whole }
        ensures { (n : NodeLimits) (shares : List Share) → IsSharesOf n whole shares self.now
            → MatchBool result ((k : ℕ) → k < teams_in n → parts_of (shares_of shares k) ≤ whole)
            (((k : ℕ) → k < teams_in n → parts_of (shares_of shares k) ≤ whole) → ⊥) }
    {
        for k in 0..self.teams.len() {
            if !is_one_at_most(self.teams[k].share) {
                return false;
            }
        }
        true
    }

    /// The sum over all teams of how far their visits are from what their required pairs need; None where one can't be told.
    fn pair_gaps(&self, limits: &Limits<'_>, whole: u128) -> Option<Mixed>
        requires some { 1 ≤ whole }
        requires whole { whole < 2 ^ 127 }
        requires sums { (shares : List Share) × IsSharesOf limits.now.limits whole shares self.now }
        ensures exact { (c : FractionalChoice) → c.whole ≡ whole
            → IsSharesOf limits.now.limits whole c.shares self.now
            → MatchOption result ((k : ℕ) × (j : ℕ) × (j < tasks_in limits.now.limits)
            × (1000 * whole ≤ weighed_visits (shares_of c.shares k) j))
            (λ gaps. value gaps whole ≡ total (teams_in limits.now.limits)
            (λ k. total (tasks_in limits.now.limits) (pair_gap limits.now.limits c k))) }
        ensures mixed { IfSome result (λ gaps. IsMixed gaps whole (pos 90000000)) }
    {
        let mut gaps = NOTHING;
        for k in 0..limits.instance().teams() {
            let Some(more) = team_gaps(limits, k as u32, &self.teams[k].visits, whole) else {
                return None;
            };
            gaps = mixed_add(gaps, more, whole);
        }
        Some(gaps)
    }

    /// Whether the shares that were added, with these unassigned shares of the tasks, are a fractional choice in the node
    /// that leaves at most now - 1 tasks and a thousandth of one unassigned.
    pub fn is_loose(
        &self,
        limits: &Limits<'_>,
        now: u32,
        spare: &WideNumbers<'_>,
        whole: u128,
    ) -> bool
        requires some { 1 ≤ whole }
        requires whole { whole < 2 ^ 127 }
        requires now { 1 ≤ now }
        requires few { now ≤ 400 }
        requires spares { (j : ℕ) → slice_index_or spare.now j 0 ≤ whole }
        requires count { length spare.now ≡ tasks_in limits.now.limits }
        requires sums { (shares : List Share) × IsSharesOf limits.now.limits whole shares self.now }
        ensures { (c : FractionalChoice) → c.whole ≡ whole → c.unassigned ≡ spare.now
            → All (λ (s : Share). IsRouteIn limits.now.limits s.route) c.shares
            → IsSharesOf limits.now.limits whole c.shares self.now
            → MatchBool result (IsLooseChoice limits.now.limits c now)
            (IsLooseChoice limits.now.limits c now → ⊥) }
    {
        // What holds of its tasks: there are few, and each needs few teams.
        let _instance = limits.instance();
        if !self.teams_fit(whole) {
            return false;
        }
        if !spares_fit(limits, spare) {
            return false;
        }
        let Some(tasks) = task_gaps(limits, &self.all.visits, spare, whole) else {
            return false;
        };
        let Some(pairs) = self.pair_gaps(limits, whole) else {
            return false;
        };
        let spares = spare_sum(spare, whole);
        is_within(mixed_add(tasks, pairs, whole), spares, now, whole)
    }
}
