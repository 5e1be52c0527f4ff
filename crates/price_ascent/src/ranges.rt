// Tests of what an ascent may move, and how far.
ghost use Rattle.std.specs.Prelude.{◌≡◌, ◌<◌, ◌↔◌, IsTrue};
ghost use Rattle.crew_terms.specs.Leaf.{IsPrice};
ghost use Rattle.crew_terms.specs.Limits.{pair_of, tasks_in, teams_in};
ghost use Rattle.crew_terms.specs.declared.Pair.TheVariants.{Required};

use crew_terms::{MOST_PRICE, Pair};
use node_limits::Limits;

/// The price in the price limits that is nearest.
pub(crate) fn as_price(v: i64) -> i64
    ensures { IsPrice result }
{
    v.max(-(MOST_PRICE as i64)).min(MOST_PRICE as i64)
}

/// Whether the node requires the pair.
pub(crate) fn is_required(limits: &Limits<'_>, k: u32, j: u32) -> bool
    requires team { k < teams_in limits.now.limits }
    requires task { j < tasks_in limits.now.limits }
    ensures { IsTrue result ↔ (pair_of limits.now.limits k j ≡ Required) }
{
    match limits.pair(k, j) {
        Pair::Required => true,
        Pair::Free | Pair::Forbidden => false,
    }
}
