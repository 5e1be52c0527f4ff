// One step of the wave.
ghost use Rattle.std.specs.Prelude.{◌≡◌, ◌≤◌, ◌<◌, ◌+◌, ◌*◌, ℕ, length, vec_len, All};
ghost use Rattle.crew_terms.specs.Instance.{Instance as Problem};
ghost use Rattle.crew_terms.specs.declared.TheConstants.{LAST_MINUTE, MOST_TEAMS};
ghost use Rattle.delay_wave.specs.declared.lates.TheConstants.{LATEST_END};
ghost use Rattle.delay_wave.specs.Steps.{AreNoted, EndBy, IsStep, IsWaitAfter, ready_from};

use crate::lates::LATEST_END;
use crate::waits::Wait;
use crew_instance::{Instance, Turn};
use crew_terms::MOST_TASKS;

/// No task of the wave ends later.
pub(crate) const LATEST: u32 = LATEST_END * (MOST_TASKS as u32 + 1);

/// A task that ended at a minute.
#[derive(Clone, Copy)]
pub(crate) struct Ended {
    pub(crate) task: u32,
    pub(crate) end: u32,
}

/// When a team that did this last can begin task `h`.
fn ready_from(instance: &Instance, ended: Ended, h: u32) -> u32
    requires from { ended.task < length instance.now.tasks }
    requires to { h < length instance.now.tasks }
    requires end { ended.end ≤ LATEST }
    ensures ready { result ≡ ready_from instance.now ended h }
    ensures limit { result ≤ ended.end + LAST_MINUTE }
{
    let from = instance.task(ended.task).place;
    let to = instance.task(h).place;
    ended.end + instance.travel(from, to)
}

/// The wait where a team may be ready later: it came from task `task`.
fn not_before(wait: Wait, task: u32, ready: u32) -> Wait
    ensures later { wait.start < ready → result ≡ record { start = ready; held_by = Some task } }
    ensures same { ready ≤ wait.start → result ≡ wait }
{
    if ready <= wait.start {
        return wait;
    }
    Wait {
        start: ready,
        held_by: Some(task),
    }
}

/// When the task of the turn begins, and what it waits for, where the teams did these tasks last.
fn wait_of(instance: &Instance, last: &[Option<Ended>], turn: Turn, teams: &[u32]) -> Wait
    requires task { turn.task < length instance.now.tasks }
    requires teams { All (λ k. k < length last.now) teams.now }
    requires last { EndBy instance.now last.now LATEST }
    ensures wait { IsWaitAfter instance.now last.now turn teams.now (length teams.now) result }
    ensures limit { (b : ℕ) → turn.start ≤ b → EndBy instance.now last.now b
        → result.start ≤ b + LAST_MINUTE }
{
    let mut wait = Wait {
        start: turn.start,
        held_by: None,
    };
    for k in teams {
        if let Some(ended) = last[*k as usize] {
            let ready = ready_from(instance, ended, turn.task);
            wait = not_before(wait, ended.task, ready);
        }
    }
    wait
}

/// The teams have done this last.
fn note(last: &mut [Option<Ended>], teams: &[u32], ended: Ended)
    requires { All (λ k. k < length last.old) teams.now }
    ensures { AreNoted last.old teams.now (length teams.now) ended last.new }
{
    for k in teams {
        last[*k as usize] = Some(ended);
    }
}

/// Has the task of the turn begin, where its end may be told.
pub(crate) fn step(
    instance: &Instance,
    turn: Turn,
    teams: &[u32],
    told: u32,
    last: &mut [Option<Ended>],
    waits: &mut [Option<Wait>],
)
    requires task { turn.task < length instance.now.tasks }
    requires start { turn.start ≤ LAST_MINUTE }
    requires place { turn.task < length waits.old }
    requires teams { All (λ k. k < length last.old) teams.now }
    requires last { EndBy instance.now last.old LATEST }
    ensures step { IsStep instance.now told turn teams.now last.old waits.old last.new waits.new }
    ensures limit { (b : ℕ) → turn.start ≤ b → told ≤ b → EndBy instance.now last.old b
        → EndBy instance.now last.new (b + 2 * LAST_MINUTE) }
{
    let wait = wait_of(instance, last, turn, teams);
    let minutes = instance.task(turn.task).minutes;
    let ended = Ended {
        task: turn.task,
        end: told.max(wait.start + minutes),
    };
    waits[turn.task as usize] = Some(wait);
    note(last, teams, ended);
}
