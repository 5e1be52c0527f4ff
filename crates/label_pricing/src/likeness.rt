// Teams that price alike.
ghost use Rattle.std.specs.Prelude.{◌≡◌, ◌<◌, ◌↔◌, ℕ, ℤ, List, IsTrue};
ghost use Rattle.crew_terms.specs.Leaf.{IsOnRequired, IsWorth, Prices as NodePrices, rewards, earned};
ghost use Rattle.crew_terms.specs.Limits.{Limits as NodeLimits, IsRoute, pair_of, tasks_in, teams_in};
ghost use Rattle.crew_terms.specs.declared.Visit.{Visit as TeamVisit};
ghost use Rattle.label_pricing.specs.Alike.{AreAlike, AreSame, IsPairAlike};

use crew_terms::{Pair, Team};
use node_limits::Limits;

/// Whether two teams have the same home, shift and skills.
fn are_same(first: &Team, second: &Team) -> bool
    ensures { IsTrue result ↔ AreSame first.now second.now }
{
    first.home == second.home
        && first.from == second.from
        && first.until == second.until
        && first.skills == second.skills
}

/// Whether two pairs are both free or both forbidden.
fn is_pair_alike(first: Pair, second: Pair) -> bool
    ensures { IsTrue result ↔ IsPairAlike first second }
{
    matches!(
        (first, second),
        (Pair::Free, Pair::Free) | (Pair::Forbidden, Pair::Forbidden)
    )
}

/// Whether two teams price alike in the node: they have the same home, shift and skills, no task is required of either,
/// and each task is free for both or forbidden for both.
pub fn alike(limits: &Limits<'_>, k: u32, h: u32) -> bool
    requires first { k < teams_in limits.now.limits }
    requires second { h < teams_in limits.now.limits }
    ensures { IsTrue result ↔ AreAlike limits.now.limits k h }
{
    let instance = limits.instance();
    if !are_same(instance.team(k), instance.team(h)) {
        return false;
    }
    for j in 0..instance.tasks() as u32 {
        if !is_pair_alike(limits.pair(k, j), limits.pair(h, j)) {
            return false;
        }
    }
    true
}

/// Teams that are alike have the same routes, which earn both the same, so they have the same worth.
pub fn alike_teams_earn_alike()
    ensures routes { (n : NodeLimits) (k h : ℕ) (r : List TeamVisit) → AreAlike n k h
        → IsRoute n k r → IsRoute n h r }
    ensures rewards { (n : NodeLimits) (k h : ℕ) (p : NodePrices) (r : List TeamVisit)
        → AreAlike n k h → IsOnRequired n p
        → IsRoute n k r → rewards (earned p k) r ≡ rewards (earned p h) r }
    ensures worths { (n : NodeLimits) (k h : ℕ) (p : NodePrices) (v : ℤ) → AreAlike n k h
        → IsOnRequired n p
        → IsWorth n k (earned p k) v → IsWorth n h (earned p h) v }
{}
