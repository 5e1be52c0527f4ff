// What keeps a team from taking a task into its day.
ghost use Rattle.std.specs.Prelude.{◌≡◌, ◌≢◌, ◌≤◌, ◌<◌, ◌↔◌, ℕ, length, Contains, IfSome, IsTrue, MatchOption};
ghost use Rattle.crew_terms.specs.Instance.{CanFollow, IsInShift, task_of};
ghost use Rattle.crew_terms.specs.Legal.{IsFeasible};
ghost use Rattle.crew_terms.specs.Plan.{Plan as Jobs, Does};
ghost use Rattle.crew_instance.specs.Turns.{AreTurns};
ghost use Rattle.team_days.specs.Free.{IsFreeFor, IsLastBefore};
ghost use Rattle.team_days.specs.Obstacles.{IsCountBefore, IsNextFrom, IsTeamDay, IsTurnOf, obstacle_of};

use arrayvec::ArrayVec;
use crew_instance::{Instance, Plan, Turn, fill_turns};

/// What keeps a team from taking a task at a minute into its day.
#[derive(Clone, Copy, Debug, Default, PartialEq, Eq)]
pub enum Obstacle {
    /// Nothing does.
    #[default]
    Free,
    /// The team lacks a skill of the task.
    Skill,
    /// The team can't come from home and be back in its shift.
    Shift,
    /// The team begins this task then, comes too late from it, or would come too late to it.
    Busy(u32),
}

impl Obstacle {
    /// Whether nothing keeps the team from it.
    pub fn is_free(self) -> bool
        ensures { IsTrue result ↔ (self ≡ Obstacle.Free) }
    {
        match self {
            Obstacle::Free => true,
            Obstacle::Skill | Obstacle::Shift | Obstacle::Busy(_) => false,
        }
    }
}

/// How many of a team's turns begin before the minute.
fn turns_before(turns: &[Turn], t: u32) -> usize
    ensures cut { (p : Jobs) (k n : ℕ) → AreTurns p k n turns.now
        → IsCountBefore turns.now t result }
    ensures bound { result ≤ length turns.now }
{
    turns.partition_point(|v| v.start < t)
}

/// The last of a team's turns before the minute, and the first at the minute or after it.
pub(crate) fn neighbours(turns: &[Turn], t: u32) -> (Option<Turn>, Option<Turn>)
    ensures before { (p : Jobs) (k : ℕ) → AreTurns p k (length p) turns.now →
        MatchOption result.0 ((h s : ℕ) → Does p k h s → t ≤ s)
        (λ v. IsLastBefore p k t v.task v.start) }
    ensures next { (p : Jobs) (k : ℕ) → AreTurns p k (length p) turns.now →
        MatchOption result.1 ((h s : ℕ) → Does p k h s → s < t) (IsNextFrom p k t) }
    ensures listed { IfSome result.0 (Contains turns.now) }
    ensures next_listed { IfSome result.1 (Contains turns.now) }
{
    let at = turns_before(turns, t);
    let before = if at > 0 { Some(turns[at - 1]) } else { None };
    let next = if at < turns.len() {
        Some(turns[at])
    } else {
        None
    };
    (before, next)
}

/// The task of the turn, if it begins at the minute.
fn begins_then(next: Option<Turn>, t: u32) -> Option<u32>
    ensures { MatchOption result (IfSome next (λ v. v.start ≢ t))
        (λ h. next ≡ Some (record { start = t; task = h })) }
{
    let turn = next?;
    if turn.start == t {
        Some(turn.task)
    } else {
        None
    }
}

/// The task of the turn before, if the team comes too late from it.
fn comes_late(instance: &Instance, before: Option<Turn>, turn: Turn) -> Option<u32>
    requires before { IfSome before (IsTurnOf instance.now) }
    requires turn { IsTurnOf instance.now turn }
    ensures { MatchOption result (IfSome before
        (λ v. CanFollow instance.now v.task v.start turn.task turn.start))
        (λ h. (s : ℕ) × (before ≡ Some (record { start = s; task = h }))
        × ¬ (CanFollow instance.now h s turn.task turn.start)) }
{
    let before = before?;
    if instance.can_follow(before.task, before.start, turn.task, turn.start) {
        None
    } else {
        Some(before.task)
    }
}

/// The task of the next turn, if the team would come too late to it.
fn goes_on_late(instance: &Instance, turn: Turn, next: Option<Turn>) -> Option<u32>
    requires turn { IsTurnOf instance.now turn }
    requires next { IfSome next (IsTurnOf instance.now) }
    ensures { MatchOption result (IfSome next
        (λ v. CanFollow instance.now turn.task turn.start v.task v.start))
        (λ h. (u : ℕ) × (next ≡ Some (record { start = u; task = h }))
        × ¬ (CanFollow instance.now turn.task turn.start h u)) }
{
    let next = next?;
    if instance.can_follow(turn.task, turn.start, next.task, next.start) {
        None
    } else {
        Some(next.task)
    }
}

/// What keeps team `k` from taking task `j` at minute `t` into its day, where the turns are what the team does in a
/// feasible plan, in order. Those on both sides of the minute are found by halving the list.
pub fn obstacle_in(instance: &Instance, turns: &[Turn], k: u32, j: u32, t: u32) -> Obstacle
    requires team { k < length instance.now.teams }
    requires task { j < length instance.now.tasks }
    requires window { t ≤ (task_of instance.now j).latest }
    requires day { IsTeamDay instance.now k turns.now }
    ensures { (p : Jobs) → IsFeasible instance.now p → AreTurns p k (length p) turns.now
        → result ≡ obstacle_of instance.now p k j t }
{
    if !instance.qualified(k, j) {
        return Obstacle::Skill;
    }
    if !instance.in_shift(k, j, t) {
        return Obstacle::Shift;
    }
    let turn = Turn { start: t, task: j };
    let (before, next) = neighbours(turns, t);
    if let Some(h) = begins_then(next, t) {
        return Obstacle::Busy(h);
    }
    if let Some(h) = comes_late(instance, before, turn) {
        return Obstacle::Busy(h);
    }
    if let Some(h) = goes_on_late(instance, turn, next) {
        return Obstacle::Busy(h);
    }
    Obstacle::Free
}

/// Whether team `k` can take task `j` at minute `t` into its day, where the turns are what the team does in a feasible
/// plan, in order.
pub fn is_free_in(instance: &Instance, turns: &[Turn], k: u32, j: u32, t: u32) -> bool
    requires team { k < length instance.now.teams }
    requires task { j < length instance.now.tasks }
    requires window { t ≤ (task_of instance.now j).latest }
    requires day { IsTeamDay instance.now k turns.now }
    ensures { (p : Jobs) → IsFeasible instance.now p → AreTurns p k (length p) turns.now
        → IsTrue result ↔ IsFreeFor instance.now p k j t }
{
    obstacle_in(instance, turns, k, j, t).is_free()
}

/// What keeps team `k` from taking task `j` at minute `t` into its day in a feasible plan: the first of a skill that it
/// lacks, its shift, a task that it begins then, the last one before and the first one after, where it can't come from
/// the one or to the other in time. It takes no memory.
pub fn obstacle_at(instance: &Instance, plan: &Plan, k: u32, j: u32, t: u32) -> Obstacle
    requires plan { IsFeasible instance.now plan.now }
    requires team { k < length instance.now.teams }
    requires task { j < length instance.now.tasks }
    requires window { t ≤ (task_of instance.now j).latest }
    ensures obstacle { result ≡ obstacle_of instance.now plan.now k j t }
    ensures free { (result ≡ Obstacle.Free) ↔ IsFreeFor instance.now plan.now k j t }
{
    let mut turns = ArrayVec::new();
    fill_turns(plan, k, &mut turns);
    obstacle_in(instance, turns.as_slice(), k, j, t)
}
