// The minutes at which enough teams could begin a task.
ghost use Rattle.std.specs.Prelude.{◌≡◌, ◌≤◌, ◌<◌, ◌↔◌, ◌+◌, length, map, slice_index_or, [], IfOk, IsTrue};
ghost use Rattle.std.specs.List.{range_with_len};
ghost use Rattle.crew_terms.specs.Limits.{IsPermittedVisit, root_limits, tasks_in, teams_in};
ghost use Rattle.squeeze_terms.specs.Possible.{able_count, possible_minutes};

use node_limits::Limits;
use squeeze_laws::able_teams_may_begin;
use std::alloc::{AllocError, Global};
use std::marker::Model;

/// Whether team `k` may begin task `j` at minute `t`.
fn is_permitted(limits: &Limits<'_>, k: u32, j: u32, t: u32) -> bool
    requires team { k < teams_in limits.now.limits }
    requires task { j < tasks_in limits.now.limits }
    ensures { IsTrue result ↔ IsPermittedVisit limits.now.limits k j t }
{
    match limits.minutes(k, j) {
        Some((first, last)) => first <= t && t <= last,
        None => false,
    }
}

/// How many teams may begin task `j` at minute `t`.
fn able_count(limits: &Limits<'_>, j: u32, t: u32) -> u32
    requires task { j < tasks_in limits.now.limits }
    ensures { result ≡ able_count limits.now.limits j t }
{
    able_teams_may_begin();
    let mut count = 0;
    for k in 0..limits.instance().teams() as u32 {
        if is_permitted(limits, k, j, t) {
            count += 1;
        }
    }
    count
}

/// Minutes, rising. In contracts: that list.
#[derive(Drop)]
pub struct Minutes {
    list: Vec<u32>,
}

impl Model for Minutes {
    ghost use Rattle.std.specs.Prelude.{List, ℕ};

    ghost Value = { List ℕ };

    ghost view = { λ a. a.list.items };
}

/// The possible minutes of task `j`, by the limits of the root.
fn minutes_of(alloc: Global, limits: &Limits<'_>, j: u32) -> Result<Minutes, AllocError>
    requires task { j < tasks_in limits.now.limits }
    requires root { limits.now.limits ≡ root_limits limits.now.limits.instance }
    ensures { IfOk result (λ m. m ≡ possible_minutes limits.now.limits.instance j) }
{
    let task = *limits.instance().task(j);
    let mut list = Vec::new(alloc);
    for t in task.earliest..task.latest + 1 {
        if task.teams <= able_count(limits, j, t) {
            list.push(t)?;
        }
    }
    Ok(Minutes { list })
}

/// The possible minutes of each task: those of its own window at which as many teams as it needs have the visit permitted
/// at the root. A frozen task has one at most.
///
/// In contracts: the list of the minutes of each task.
#[derive(Drop)]
pub struct PossibleMinutes {
    tasks: Vec<Minutes>,
}

impl Model for PossibleMinutes {
    ghost use Rattle.std.specs.Prelude.{List, ℕ};

    ghost Value = { List (List ℕ) };

    ghost view = { λ a. a.tasks.items };
}

impl PossibleMinutes {
    /// Those of all tasks, by the limits of the root.
    pub fn of(alloc: Global, limits: &Limits<'_>) -> Result<PossibleMinutes, AllocError>
        requires root { limits.now.limits ≡ root_limits limits.now.limits.instance }
        ensures { IfOk result (λ m. m ≡ map (possible_minutes limits.now.limits.instance)
            (range_with_len 0 (tasks_in limits.now.limits))) }
    {
        let count = limits.instance().tasks();
        let mut tasks = Vec::with_capacity(alloc, count)?;
        for j in 0..count as u32 {
            tasks.push(minutes_of(alloc, limits, j)?)?;
        }
        Ok(PossibleMinutes { tasks })
    }

    /// The possible minutes of task `j`.
    pub fn of_task(&self, j: u32) -> &[u32]
        requires { j < length self.now }
        ensures { result.now ≡ slice_index_or self.now j [] }
    {
        &self.tasks[j as usize].list
    }
}
