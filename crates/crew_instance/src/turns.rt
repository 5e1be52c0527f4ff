// A team's tasks in the order in which it does them, and the first that it can't come to in time.
ghost use Rattle.std.specs.Prelude.{◌≡◌, ◌≤◌, ◌<◌, ◌+◌, ◌↔◌, ◌∷◌, ℕ, length, All, Contains, IfSome, IsTrue, MatchOption};
ghost use Rattle.std.specs.Int.{bit_at};
ghost use Rattle.std.specs.List.Sorted.{IsPermutation};
ghost use Rattle.crew_terms.specs.Instance.{CanFollow, task_of};
ghost use Rattle.crew_terms.specs.Plan.{Does};
ghost use Rattle.crew_terms.specs.Legal.{IsFeasible};
ghost use Rattle.crew_terms.specs.Verdict.{AreJobsBelow, HasNoClash, IsFeasibility, IsPlanOf};
ghost use Rattle.crew_terms.specs.declared.TheConstants.{MOST_TASKS, MOST_TEAMS};
ghost use Rattle.arrayvec.specs.ArrayVec.{array_vec_len};
ghost use Rattle.crew_instance.specs.Turns.{AreTeamSets, AreTurns, IsClash, IsInOrder};

use crate::instances::Instance;
use crate::plans::Plan;
use arrayvec::ArrayVec;
use crew_terms::{MOST_TASKS, PlanVerdict};

/// A task that a team begins, at a minute of the day.
#[derive(Clone, Copy, Default)]
pub struct Turn {
    pub start: u32,
    pub task: u32,
}

/// Room to look through the jobs of a plan in: the teams of each task as a set, and the tasks of one team. What it holds
/// between calls doesn't matter; who keeps it spares the next call its making.
#[derive(Drop)]
pub struct TurnRoom {
    sets: ArrayVec<u64, MOST_TASKS>,
    turns: ArrayVec<Turn, MOST_TASKS>,
}

impl TurnRoom {
    /// New room. It takes no memory.
    pub fn new() -> TurnRoom {
        TurnRoom {
            sets: ArrayVec::new(),
            turns: ArrayVec::new(),
        }
    }
}

/// These teams as a set, a bit for each of the numbers 0 to 63.
fn team_set(teams: &[u32]) -> u64
    requires { All (λ k. k < MOST_TEAMS) teams.now }
    ensures { (k : ℕ) → Contains teams.now k → bit_at result k ≡ 1 }
{
    let mut set = 0u64;
    for k in teams {
        set |= 1 << *k;
    }
    set
}

/// Puts the teams of each task, as a set, in the place of what the list holds.
fn gather_sets(plan: &Plan, sets: &mut ArrayVec<u64, MOST_TASKS>)
    requires { (k j t : ℕ) → Does plan.now k j t → k < MOST_TEAMS }
    ensures { AreTeamSets plan.now sets.new.items }
{
    sets.clear();
    for task in 0..plan.len() as u32 {
        sets.push(team_set(plan.teams(task)));
    }
}

/// Puts a task behind those that begin no later.
fn put_in_order(turns: &mut ArrayVec<Turn, MOST_TASKS>, turn: Turn)
    requires room { array_vec_len turns.old < MOST_TASKS }
    requires order { IsInOrder turns.old.items }
    requires last { All (λ v. v.task < turn.task) turns.old.items }
    ensures order { IsInOrder turns.new.items }
    ensures moved { IsPermutation (turn ∷ turns.old.items) turns.new.items }
{
    let at = turns.partition_point(|v| v.start <= turn.start);
    turns.insert(at, turn);
}

/// Whether team `k` is one of the teams. They are few, and looked at one by one.
fn is_among(teams: &[u32], k: u32) -> bool
    ensures { IsTrue result ↔ Contains teams.now k }
{
    teams.iter().any(|team| *team == k)
}

/// The turn of team `k` at a task, if it does the task.
fn turn_at(plan: &Plan, k: u32, task: u32) -> Option<Turn>
    requires { task < length plan.now }
    ensures { MatchOption result ((t : ℕ) → Does plan.now k task t → ⊥)
        (λ v. (v.task ≡ task) × Does plan.now k v.task v.start) }
{
    let start = plan.start(task)?;
    if is_among(plan.teams(task), k) {
        Some(Turn { start, task })
    } else {
        None
    }
}

/// The same, where the set of the task's teams may be known. A team that is not in it is not looked for.
#[inline(always)]
fn turn_among(plan: &Plan, k: u32, task: u32, sets: &[u64]) -> Option<Turn>
    requires task { task < length plan.now }
    requires sets { AreTeamSets plan.now sets.now }
    requires team { task < length sets.now → k < MOST_TEAMS }
    ensures { MatchOption result ((t : ℕ) → Does plan.now k task t → ⊥)
        (λ v. (v.task ≡ task) × Does plan.now k v.task v.start) }
{
    let at = task as usize;
    if at < sets.len() && (sets[at] >> k) & 1 == 0 {
        return None;
    }
    turn_at(plan, k, task)
}

/// Puts the tasks of team `k` in the place of what the list holds, with the sets of the teams of the first tasks.
#[inline(always)]
fn fill_among(plan: &Plan, k: u32, sets: &[u64], turns: &mut ArrayVec<Turn, MOST_TASKS>)
    requires sets { AreTeamSets plan.now sets.now }
    requires team { 0 < length sets.now → k < MOST_TEAMS }
    ensures { AreTurns plan.now k (length plan.now) turns.new.items }
{
    turns.clear();
    for task in 0..plan.len() as u32 {
        if let Some(turn) = turn_among(plan, k, task, sets) {
            put_in_order(turns, turn);
        }
    }
}

/// Puts the tasks of team `k`, by start and then by number, in the place of what the list holds.
pub fn fill_turns(plan: &Plan, k: u32, turns: &mut ArrayVec<Turn, MOST_TASKS>)
    ensures { AreTurns plan.now k (length plan.now) turns.new.items }
{
    fill_among(plan, k, &[], turns);
}

/// The first of the team's tasks that it can't come to in time from the one before. The list is memory to work in, and
/// what it holds before doesn't matter.
// Each team goes through all tasks here, so its loop is kept out of the checker of lines.
#[inline(never)]
fn clash_of(
    instance: &Instance,
    plan: &Plan,
    k: u32,
    sets: &[u64],
    turns: &mut ArrayVec<Turn, MOST_TASKS>,
) -> Option<PlanVerdict>
    requires plan { IsPlanOf instance.now plan.now }
    requires jobs { AreJobsBelow instance.now plan.now (length plan.now) }
    requires sets { AreTeamSets plan.now sets.now }
    requires team { k < MOST_TEAMS }
    ensures { MatchOption result (HasNoClash instance.now plan.now k)
        (IsClash instance.now plan.now k) }
{
    fill_among(plan, k, sets, turns);
    let turns = turns.as_slice();
    for i in 1..turns.len() {
        let before = turns[i - 1];
        let after = turns[i];
        if !instance.can_follow(before.task, before.start, after.task, after.start) {
            return Some(PlanVerdict::Clash(k, before.task, after.task));
        }
    }
    None
}

/// The first clash of a team, by team, in a plan whose jobs are good; None exactly where the plan is feasible.
pub(crate) fn fault_of_teams(
    instance: &Instance,
    plan: &Plan,
    room: &mut TurnRoom,
) -> Option<PlanVerdict>
    requires plan { IsPlanOf instance.now plan.now }
    requires jobs { AreJobsBelow instance.now plan.now (length plan.now) }
    ensures verdict { MatchOption result (IsFeasible instance.now plan.now)
        (IsFeasibility instance.now plan.now) }
    ensures fault { IfSome result (λ _. ¬ (IsFeasible instance.now plan.now)) }
{
    let count = instance.teams() as u32;
    gather_sets(plan, &mut room.sets);
    let sets = room.sets.as_slice();
    for k in 0..count {
        if let Some(fault) = clash_of(instance, plan, k, sets, &mut room.turns) {
            return Some(fault);
        }
    }
    None
}
