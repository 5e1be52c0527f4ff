// The tasks that have a row of numbers in a leaf: which comes next, and at which minutes a team may begin it.
ghost use Rattle.std.specs.Prelude.{◌≡◌, ◌≤◌, ◌<◌, ◌+◌, length, MatchOption, IfSome};
ghost use Rattle.crew_terms.specs.Instance.{task_of};
ghost use Rattle.crew_terms.specs.Limits.{has_required, tasks_in, teams_in};
ghost use Rattle.crew_terms.specs.Minutes.{minute_count, required_teams};
ghost use Rattle.crew_terms.specs.declared.TheConstants.{LAST_MINUTE};
ghost use Rattle.leaf_check.specs.Keys.{AreCounted, IsNextKey, has_minutes};

use crew_laws::minutes_are_permitted;
use node_limits::Limits;

/// The first minute at which team `k` may begin task `j`, and how many such minutes there are.
pub fn counted_minutes(limits: &Limits<'_>, k: u32, j: u32) -> (u32, u32)
    requires team { k < teams_in limits.now.limits }
    requires task { j < tasks_in limits.now.limits }
    requires some { 0 < minute_count limits.now.limits k j }
    ensures minutes { AreCounted limits.now.limits k j result.0 result.1 }
    ensures early { (task_of limits.now.limits.instance j).earliest ≤ result.0 }
    ensures late { result.0 + result.1 ≤ (task_of limits.now.limits.instance j).latest + 1 }
    ensures day { result.0 + result.1 ≤ LAST_MINUTE + 1 }
{
    minutes_are_permitted();
    // What holds of its tasks: no minute is past `LAST_MINUTE`.
    let _day = limits.instance();
    let (first, last) = limits.minutes(k, j).unwrap();
    (first, last + 1 - first)
}

/// Whether there is a minute at which team `k` may begin task `j`.
pub fn is_open(limits: &Limits<'_>, k: u32, j: u32) -> bool
    requires team { k < teams_in limits.now.limits }
    requires task { j < tasks_in limits.now.limits }
    ensures { result ≡ has_minutes limits.now.limits k j }
{
    minutes_are_permitted();
    limits.minutes(k, j).is_some()
}

/// The first task from this one on that team `k` may begin at some minute.
pub fn next_open(limits: &Limits<'_>, k: u32, from: usize) -> Option<u32>
    requires { k < teams_in limits.now.limits }
    ensures { IsNextKey (has_minutes limits.now.limits k) (tasks_in limits.now.limits) from result }
{
    for j in from..limits.instance().tasks() {
        if is_open(limits, k, j as u32) {
            return Some(j as u32);
        }
    }
    None
}

/// How many teams the node requires at the task.
pub fn required_count(limits: &Limits<'_>, j: u32) -> u32
    requires { j < tasks_in limits.now.limits }
    ensures { result ≡ length (required_teams limits.now.limits j) }
{
    // What holds of the limits: they have a row of pairs for each team.
    let _rows = limits.instance();
    limits.required(j)
}

/// Whether the node requires a team at the task.
fn is_priced(limits: &Limits<'_>, j: u32) -> bool
    requires { j < tasks_in limits.now.limits }
    ensures { result ≡ has_required limits.now.limits j }
{
    limits.required(j) > 0
}

/// The first task from this one on at which the node requires a team.
pub fn next_priced(limits: &Limits<'_>, from: usize) -> Option<u32>
    ensures { IsNextKey (has_required limits.now.limits) (tasks_in limits.now.limits) from result }
{
    for j in from..limits.instance().tasks() {
        if is_priced(limits, j as u32) {
            return Some(j as u32);
        }
    }
    None
}
