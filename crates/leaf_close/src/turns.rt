// Whether a team can do what is required of it.
ghost use Rattle.std.specs.Prelude.{◌≡◌, ◌<◌, All, MatchBool};
ghost use Rattle.crew_terms.specs.Limits.{tasks_in, teams_in};
ghost use Rattle.crew_terms.specs.Decided.{IsDecided};
ghost use Rattle.search_terms.specs.Closing.{IsStuck, required_plan};
ghost use Rattle.leaf_close.specs.Turns.{CanFollowAll, CanNotFollow, MayBeginAll, MayNotBegin};

use arrayvec::ArrayVec;
use crew_instance::{Turn, fill_turns};
use crew_laws::required_teams_are_listed;
use crew_terms::MOST_TASKS;
use node_limits::Limits;
use plan_check::Plan;

/// Whether there is a turn whose task team `k` may not begin.
fn may_not_begin(limits: &Limits<'_>, k: u32, turns: &[Turn]) -> bool
    requires team { k < teams_in limits.now.limits }
    requires tasks { All (λ v. v.task < tasks_in limits.now.limits) turns.now }
    ensures { MatchBool result (MayNotBegin limits.now.limits k turns.now)
        (MayBeginAll limits.now.limits k turns.now) }
{
    for v in turns {
        if !limits.may_visit(k, v.task, v.start) {
            return true;
        }
    }
    false
}

/// Whether there is a turn that can't follow the one before it.
fn can_not_follow(limits: &Limits<'_>, turns: &[Turn]) -> bool
    requires { All (λ v. v.task < tasks_in limits.now.limits) turns.now }
    ensures { MatchBool result (CanNotFollow limits.now.limits turns.now)
        (CanFollowAll limits.now.limits turns.now) }
{
    for i in 1..turns.len() {
        let before = turns[i - 1];
        let after = turns[i];
        if !limits.may_follow(before.task, before.start, after.task, after.start) {
            return true;
        }
    }
    false
}

/// Whether team `k` can't do all that is required of it. The plan is that of the required pairs, and the list is memory to
/// work in.
pub(crate) fn is_stuck(
    limits: &Limits<'_>,
    plan: &Plan,
    k: u32,
    turns: &mut ArrayVec<Turn, MOST_TASKS>,
) -> bool
    requires decided { IsDecided limits.now.limits }
    requires plan { plan.now ≡ required_plan limits.now.limits }
    requires team { k < teams_in limits.now.limits }
    ensures { MatchBool result (IsStuck limits.now.limits k) (IsStuck limits.now.limits k → ⊥) }
{
    required_teams_are_listed();
    // It is known from here on that these are limits over an instance.
    let _ = limits.instance();
    fill_turns(plan, k, turns);
    let turns = turns.as_slice();
    may_not_begin(limits, k, turns) || can_not_follow(limits, turns)
}
