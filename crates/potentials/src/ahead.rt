// What a team can earn at a place from a minute on: the two best potentials, of two different tasks.
ghost use Rattle.std.specs.Prelude.{◌≡◌, ◌≢◌, ◌<◌, ◌≤◌, ◌+◌, ◌≤ℤ◌, ℕ, ℤ, length, slice_get, Some, All, IfOk, IsTrue, []};
ghost use Rattle.potentials.specs.Ahead.{AllowsFall, AllowsFrom, AreRising, Bounds, IsBounded, Rises};
ghost use Rattle.potentials.specs.declared.ahead.Best.{Best};

use crate::followers::is_enough;
use crate::records::{MOST_MINUTES, Record};
use std::alloc::{AllocError, Global};

/// The two best potentials of visits that begin at a place at this minute or later, in 1/D of a task: the best one with its
/// task, and the best one of another task.
#[derive(Clone, Copy)]
pub(crate) struct Best {
    pub minute: u32,
    pub task: u32,
    pub potential: i64,
    pub second: i64,
}

/// The best potentials at one place, an entry for each minute at which they change, the last minute first.
#[derive(Drop)]
pub(crate) struct Ahead {
    pub list: Vec<Best>,
}

impl Best {
    /// Whether a visit of this task with this potential is none of a better one.
    fn bounds(self, task: u32, visit: Record) -> bool
        ensures { IsTrue result → Bounds self task visit.potential }
    {
        if task == self.task {
            visit.potential <= self.potential
        } else {
            visit.potential <= self.second
        }
    }

    /// Whether this one is of an earlier minute, and bounds all that the later one bounds.
    fn rises(self, later: Best) -> bool
        ensures { IsTrue result → Rises later self }
    {
        if later.minute <= self.minute || later.potential < later.second {
            return false;
        }
        if self.potential < later.potential || self.second < later.second {
            return false;
        }
        later.task == self.task || later.potential <= self.second
    }

    /// The best potential of another task than this one.
    fn but(self, task: u32) -> i64
        ensures { (h : ℕ) (potential : ℤ) → h ≢ task → Bounds self h potential → potential ≤ℤ result }
    {
        if task == self.task {
            self.second
        } else {
            self.potential.max(self.second)
        }
    }
}

/// Whether each entry is of an earlier minute than the one before it, and bounds all that it bounds.
pub(crate) fn are_rising(list: &[Best]) -> bool
    ensures { IsTrue result → AreRising list.now }
{
    for i in 1..list.len() {
        if !list[i].rises(list[i - 1]) {
            return false;
        }
    }
    true
}

/// The place of the last entry, from this place on, that is not before the minute.
fn place_until(list: &[Best], from: usize, minute: u32) -> usize {
    for i in from..list.len() {
        if list[i].minute < minute {
            return i.saturating_sub(1);
        }
    }
    list.len().saturating_sub(1)
}

/// The place of the last entry, among the first `count`, that is not before the minute.
fn place_since(list: &[Best], count: usize, minute: u32) -> usize {
    for i in (0..count).rev() {
        if let Some(best) = list.get(i)
            && minute <= best.minute
        {
            return i;
        }
    }
    0
}

/// Whether the entry at this place is of no earlier minute than the record of the task, and bounds it.
fn is_bounded_at(list: &[Best], at: usize, task: u32, visit: Record) -> bool
    ensures { IsTrue result → IsBounded list.now task visit }
{
    if at >= list.len() {
        return false;
    }
    let best = list[at];
    visit.minute <= best.minute && best.bounds(task, visit)
}

/// Whether the list bounds each of these records of the task.
pub(crate) fn are_bounded(list: &[Best], task: u32, records: &[Record]) -> bool
    ensures { IsTrue result → All (IsBounded list.now task) records.now }
{
    let mut at = 0;
    for visit in records {
        at = place_until(list, at, visit.minute);
        if !is_bounded_at(list, at, task, *visit) {
            return false;
        }
    }
    true
}

/// Whether the entry after this place, if there is one, is before the minute.
fn is_last_since(list: &[Best], at: usize, minute: u32) -> bool
    requires { at < length list.now }
    ensures { IsTrue result → (next : Best) → slice_get list.now (at + 1) ≡ Some next → next.minute < minute }
{
    at + 1 >= list.len() || list[at + 1].minute < minute
}

/// Whether a potential of the task is at least the reward and what other tasks have at the place from minute `ready` on, of which the
/// entry at this place tells.
fn allows_from(list: &[Best], at: usize, task: u32, reward: i64, ready: u32, fall: Record) -> bool
    requires { AreRising list.now }
    ensures { IsTrue result → AllowsFrom list.now task reward ready fall.potential }
{
    if at >= list.len() || !is_last_since(list, at, ready) {
        return false;
    }
    is_enough(fall.potential, reward, list[at].but(task))
}

/// Whether each of these falls of the task is at least the reward and what other tasks have at the place, where the team is
/// `away` minutes after it begins the task.
pub(crate) fn allows(list: &[Best], task: u32, reward: i64, falls: &[Record], away: u32) -> bool
    requires { AreRising list.now }
    ensures { IsTrue result → All (AllowsFall list.now task reward away) falls.now }
{
    if list.is_empty() {
        return true;
    }
    let mut count = list.len();
    for fall in falls {
        let ready = fall.minute.saturating_add(away);
        let at = place_since(list, count, ready);
        if !allows_from(list, at, task, reward, ready, *fall) {
            return false;
        }
        count = at.saturating_add(1);
    }
    true
}

impl Ahead {
    /// Takes the room, and has found nothing yet; AllocError where there is no room.
    pub fn new(alloc: Global) -> Result<Ahead, AllocError>
        ensures { IfOk result (λ ahead. ahead.list.items ≡ []) }
    {
        Ok(Ahead {
            list: Vec::with_capacity(alloc, MOST_MINUTES)?,
        })
    }
}
