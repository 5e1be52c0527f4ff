// How long a team waits before and after a task that it takes into its day.
ghost use Rattle.std.specs.Prelude.{◌≤◌, ◌<◌, length};
ghost use Rattle.crew_terms.specs.Instance.{task_of};
ghost use Rattle.team_days.specs.Obstacles.{IsTeamDay, IsTurnOf};

use crate::obstacles::neighbours;
use crew_instance::{Instance, Turn};

/// Longer waits count as this one, in minutes.
pub const LONGEST_IDLE: u32 = 60;

/// The minutes from when a team that takes the one turn could begin the other to when it does, 0 where it can't.
fn wait_between(instance: &Instance, before: Turn, after: Turn) -> u32
    requires before { IsTurnOf instance.now before }
    requires after { IsTurnOf instance.now after }
{
    let from = instance.task(before.task);
    let to = instance.task(after.task);
    let ready = before.start + from.minutes + instance.travel(from.place, to.place);
    after.start.saturating_sub(ready)
}

/// The minutes that team `k` waits before task `j`, or after it if these are fewer, where it takes the task at minute `t`
/// into its day, of which the turns are what it does in a feasible plan. It is a measure of how well the task fits there:
/// the less, the fewer minutes are lost.
pub fn idle_in(instance: &Instance, turns: &[Turn], k: u32, j: u32, t: u32) -> u32
    requires team { k < length instance.now.teams }
    requires task { j < length instance.now.tasks }
    requires window { t ≤ (task_of instance.now j).latest }
    requires day { IsTeamDay instance.now k turns.now }
    ensures { result ≤ LONGEST_IDLE }
{
    let turn = Turn { start: t, task: j };
    let (before, next) = neighbours(turns, t);
    let first = match before {
        Some(v) => wait_between(instance, v, turn),
        None => LONGEST_IDLE,
    };
    let last = match next {
        Some(v) => wait_between(instance, turn, v),
        None => LONGEST_IDLE,
    };
    first.min(last).min(LONGEST_IDLE)
}
