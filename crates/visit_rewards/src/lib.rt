// What the visits of a team earn, by prices of any kind.
#![tactic(auto)]

ghost use Rattle.std.specs.Prelude.{◌≡◌, ◌<◌, ◌*◌, ℕ, ℤ};
ghost use Rattle.crew_terms.specs.Leaf.{earned as earned_by_prices};
ghost use Rattle.crew_terms.specs.Limits.{IsPermittedVisit, Limits as NodeLimits, teams_in};
ghost use Rattle.crew_terms.specs.declared.TheConstants.{MOST_PRICE};
ghost use Rattle.potentials.specs.Prices.{ArePricesOf};
ghost use Rattle.potentials.specs.Sums.{AreBoundedBy};

use node_limits::Limits;
use potentials::Prices;

/// Rewards of visits in a node, in 1/D of a task: one for each team, task and minute, at most 2,000,000 tasks either way.
pub trait Rewards {
    /// What a visit of a team to a task that begins at a minute earns in the node.
    ghost earned: { NodeLimits → Self → ℕ → ℕ → ℕ → ℤ };

    /// They are of the node.
    ghost AreOf: { NodeLimits → Self → Type 0 };

    /// What a visit of team `k` to task `j` that begins at minute `t` earns.
    fn reward(&self, limits: &Limits<'_>, k: u32, j: u32, t: u32) -> i64
        requires of { AreOf limits.now.limits self.now }
        requires team { k < teams_in limits.now.limits }
        requires visit { IsPermittedVisit limits.now.limits k j t }
        ensures reward { result ≡ earned limits.now.limits self.now k j t }
        ensures range { AreBoundedBy (2 * MOST_PRICE) (earned limits.now.limits self.now k) };
}

/// By prices of tasks and pairs a visit earns the same at each minute.
impl Rewards for Prices {
    ghost earned = { λ n p. earned_by_prices p };

    ghost AreOf = { ArePricesOf };

    fn reward(&self, _limits: &Limits<'_>, k: u32, j: u32, _t: u32) -> i64 {
        self.reward(k, j)
    }
}
