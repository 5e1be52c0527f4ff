// Laws: what is found at an open leaf is a step of the search, once it is put.
ghost use Rattle.std.specs.Prelude.{◌≡◌, ◌<◌, ℕ, ℤ, List, Option, IfSome};
ghost use Rattle.crew_terms.specs.Leaf.{Prices as LeafPrices};
ghost use Rattle.crew_terms.specs.Limits.{Route as TeamRoute};
ghost use Rattle.crew_terms.specs.Plan.{Plan as TaskPlan, unassigned_count};
ghost use Rattle.crew_terms.specs.Rules.{IsInstance};
ghost use Rattle.crew_terms.specs.declared.Choice.{Choice};
ghost use Rattle.search_core.specs.declared.handing.Handed.{Handed};
ghost use Rattle.search_tree.specs.States.{limits_of};
ghost use Rattle.search_tree.specs.Keyed.{IsKeyed, IsWaiting, Keyed};
ghost use Rattle.node_solver.specs.Plans.{IsBetterPlan, now_after};
ghost use Rattle.node_solver.specs.declared.step.Why.{Why};
ghost use Rattle.search_core.specs.Findings.{IsClosing, IsHandedSplit};
ghost use Rattle.search_core.specs.Kept.{IsKeptSearch};
ghost use Rattle.search_core.specs.Searching.{Searching, price_at};
ghost use Rattle.search_core.specs.Settled.{IsPutClosed, IsPutSplit};
ghost use Rattle.search_core.specs.Steps.{IsKeyStep, after_step};
ghost use Rattle.search_core.specs.declared.causes.Cause.{Cause};
ghost use Rattle.search_terms.specs.Search.{Extends};
ghost use Rattle.search_tree.specs.Numbered.{node_of};
ghost use Rattle.search_tree.specs.declared.nodes.Content.TheVariants as content;

use search_laws::{loose_splits_stay_shown, run_keeps};
use search_tree::{
    leaves_keep_order, numbers_stay, run_leaves, same_numbers_same_tree, steps_at_closed,
    steps_at_split,
};

/// Where the prices that were found close the leaf under a key, that is a step, and what always holds goes on to hold.
pub(crate) fn closings_are_steps()
    ensures { (s : Searching) (key n own pivots : ℕ) (bound : ℤ) (columns more : List TeamRoute)
        (found : Option TaskPlan)
        (kept : LeafPrices) (keyed : Keyed) (prices : List LeafPrices) → IsInstance s.instance
        → IsKeptSearch s → 0 < s.left →
        IsKeyed s.keyed → IsKeyed keyed → IsWaiting s.keyed key n bound
        → Extends (limits_of s.instance s.keyed n) columns more →
        IfSome found (IsBetterPlan (limits_of s.instance s.keyed n).instance
        (unassigned_count s.plan)) →
        IsClosing (limits_of s.instance s.keyed n)
        (now_after (unassigned_count s.plan) found) kept →
        IsPutClosed s.keyed keyed s.prices prices key n kept →
        IsKeptSearch (after_step s found keyed prices s.causes)
        × IsKeyStep key pivots columns more s (after_step s found keyed prices s.causes) }
{
    loose_splits_stay_shown();
    run_leaves();
    steps_at_closed();
    same_numbers_same_tree();
    numbers_stay();
    leaves_keep_order();
}

/// Where the leaf under a key is split for a cause that the columns earn, that is a step, and what always holds goes on to hold.
pub(crate) fn splits_are_steps()
    ensures { (s : Searching) (key n own pivots : ℕ) (bound : ℤ) (columns more : List TeamRoute)
        (found : Option TaskPlan)
        (choice : Choice) (why : Why) (handed : Handed) (keyed : Keyed) (prices : List LeafPrices)
        (causes : List Cause) →
        IsInstance s.instance → IsKeptSearch s → 0 < s.left → IsKeyed s.keyed → IsKeyed keyed
        → IsWaiting s.keyed key n bound →
        (node_of s.keyed.nodes n).content ≡ content.Open own
        → Extends (limits_of s.instance s.keyed n) columns more →
        IfSome found (IsBetterPlan (limits_of s.instance s.keyed n).instance
        (unassigned_count s.plan)) →
        IsHandedSplit (limits_of s.instance s.keyed n)
        (now_after (unassigned_count s.plan) found) pivots more
        (price_at s.prices own) choice why handed →
        IsPutSplit s.keyed keyed s.prices prices s.causes causes key n own choice
        (record { now = now_after (unassigned_count s.plan) found; why = why }) handed →
        IsKeptSearch (after_step s found keyed prices causes)
        × IsKeyStep key pivots columns more s (after_step s found keyed prices causes) }
{
    run_keeps();
    loose_splits_stay_shown();
    run_leaves();
    steps_at_split();
    same_numbers_same_tree();
    numbers_stay();
    leaves_keep_order();
}
