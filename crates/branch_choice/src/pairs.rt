// Free pairs of a team and a task.
ghost use Rattle.std.specs.Prelude.{◌≡◌, ◌≤◌, ◌<◌, ◌↔◌, All, IsTrue, MatchOption, MatchBool, ℕ};
ghost use Rattle.crew_terms.specs.Limits.{pair_of, tasks_in, teams_in};
ghost use Rattle.branch_choice.specs.Rules.{IsLowest, IsLowestPair, IsOpenPair, IsPairBelow, IsUsedPair, NoneIsOpen, NoneIsUsed};
ghost use Rattle.branch_choice.specs.Uses.{IsPermittedUse};

use crate::uses::Use;
use crew_terms::Pair;
use node_limits::Limits;

/// Whether the pair of team `k` and task `j` is free.
fn is_free(limits: &Limits<'_>, k: u32, j: u32) -> bool
    requires team { k < teams_in limits.now.limits }
    requires task { j < tasks_in limits.now.limits }
    ensures { IsTrue result ↔ (pair_of limits.now.limits k j ≡ Pair.Free) }
{
    matches!(limits.pair(k, j), Pair::Free)
}

/// Whether the use is of a lower pair than this one, by task and then by team.
fn is_lower(u: Use, lowest: Option<(u32, u32)>) -> bool
    ensures { MatchOption lowest (IsTrue result)
        (λ found. IsTrue result ↔ IsPairBelow u.team u.task found.0 found.1) }
{
    match lowest {
        Some((team, task)) => u.task < task || (u.task == task && u.team < team),
        None => true,
    }
}

/// The lowest free pair with a use, by task and then by team: the team and the task.
pub(crate) fn used_pair(limits: &Limits<'_>, uses: &[Use]) -> Option<(u32, u32)>
    requires { All (IsPermittedUse limits.now.limits) uses.now }
    ensures { MatchOption result (NoneIsUsed limits.now.limits uses.now)
        (λ found. IsLowestPair (IsUsedPair limits.now.limits uses.now) found.0 found.1) }
{
    let mut lowest = None;
    for u in uses {
        if is_free(limits, u.team, u.task) && is_lower(*u, lowest) {
            lowest = Some((u.team, u.task));
        }
    }
    lowest
}

/// Whether the pair of team `k` and task `j` is free, and the team may begin the task.
fn is_open(limits: &Limits<'_>, k: u32, j: u32) -> bool
    requires team { k < teams_in limits.now.limits }
    requires task { j < tasks_in limits.now.limits }
    ensures { IsTrue result ↔ IsOpenPair limits.now.limits k j }
{
    is_free(limits, k, j) && limits.minutes(k, j).is_some()
}

/// The lowest team whose pair with task `j` is free, and that may begin the task.
fn open_team(limits: &Limits<'_>, j: u32) -> Option<u32>
    requires { j < tasks_in limits.now.limits }
    ensures { MatchOption result ((k : ℕ) → IsOpenPair limits.now.limits k j → ⊥)
        (IsLowest (λ k. IsOpenPair limits.now.limits k j)) }
{
    for k in 0..limits.instance().teams() as u32 {
        if is_open(limits, k, j) {
            return Some(k);
        }
    }
    None
}

/// The lowest free pair whose team may begin the task, by task and then by team: the team and the task.
pub(crate) fn open_pair(limits: &Limits<'_>) -> Option<(u32, u32)>
    ensures { MatchOption result (NoneIsOpen limits.now.limits)
        (λ found. IsLowestPair (IsOpenPair limits.now.limits) found.0 found.1) }
{
    for j in 0..limits.instance().tasks() as u32 {
        if let Some(k) = open_team(limits, j) {
            return Some((k, j));
        }
    }
    None
}
