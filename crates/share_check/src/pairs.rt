// How far the visits of a choice are from what the required pairs of its teams need.
ghost use Rattle.std.specs.Prelude.{◌≡◌, ◌≤◌, ◌<◌, ◌*◌, ◌^◌, ℕ, pos, length, IfSome, MatchOption};
ghost use Rattle.crew_num.specs.Mixed.{IsMixed, value};
ghost use Rattle.crew_terms.specs.Limits.{tasks_in, teams_in};
ghost use Rattle.crew_terms.specs.Total.{total};
ghost use Rattle.share_terms.specs.Shares.{FractionalChoice, pair_gap, shares_of, weighed_visits};
ghost use Rattle.share_check.specs.CellSums.{AreSums, IsSum};

use crate::cells::NOTHING;
use crate::value::gap_of;
use crew_num::{Mixed, mixed_add};
use crew_terms::Pair;
use node_limits::Limits;

/// How far the team's visits to the task are from one, where they are required; None where they are too many to tell it.
fn pair_gap(limits: &Limits<'_>, k: u32, j: u32, sum: Mixed, whole: u128) -> Option<Mixed>
    requires team { k < teams_in limits.now.limits }
    requires task { j < tasks_in limits.now.limits }
    requires some { 1 ≤ whole }
    requires whole { whole < 2 ^ 127 }
    requires sum { (n : ℕ) × IsSum whole sum n }
    ensures exact { (c : FractionalChoice) → c.whole ≡ whole
        → IsSum whole sum (weighed_visits (shares_of c.shares k) j)
        → MatchOption result (1000 * whole ≤ weighed_visits (shares_of c.shares k) j)
        (λ gap. value gap whole ≡ pair_gap limits.now.limits c k j) }
    ensures mixed { IfSome result (λ gap. IsMixed gap whole (pos 1001)) }
{
    match limits.pair(k, j) {
        Pair::Required => gap_of(sum, 1, whole, whole),
        Pair::Free | Pair::Forbidden => Some(NOTHING),
    }
}

/// The sum of these gaps over all tasks; None where one can't be told.
pub(crate) fn team_gaps(limits: &Limits<'_>, k: u32, sums: &[Mixed], whole: u128) -> Option<Mixed>
    requires team { k < teams_in limits.now.limits }
    requires some { 1 ≤ whole }
    requires whole { whole < 2 ^ 127 }
    requires tasks { length sums.now ≡ tasks_in limits.now.limits }
    requires sums { (f : ℕ → ℕ) × AreSums whole sums.now f }
    ensures exact { (c : FractionalChoice) → c.whole ≡ whole
        → AreSums whole sums.now (weighed_visits (shares_of c.shares k))
        → MatchOption result ((j : ℕ) × (j < tasks_in limits.now.limits)
        × (1000 * whole ≤ weighed_visits (shares_of c.shares k) j))
        (λ gaps. value gaps whole ≡ total (tasks_in limits.now.limits)
        (pair_gap limits.now.limits c k)) }
    ensures mixed { IfSome result (λ gaps. IsMixed gaps whole (pos 1000000)) }
{
    let mut gaps = NOTHING;
    for j in 0..limits.instance().tasks() {
        let Some(gap) = pair_gap(limits, k, j as u32, sums[j], whole) else {
            return None;
        };
        gaps = mixed_add(gaps, gap, whole);
    }
    Some(gaps)
}
