// The orders in which teams do their tasks, with the first and the last minute at which each task can begin in them.

use crate::facts::Facts;
use arrayvec::ArrayVec;
use crew_instance::{Instance, Plan, Turn, fill_turns};
use crew_terms::{MOST_TASKS, MOST_TEAMS_PER_TASK};
use std::alloc::{AllocError, Global};
use std::mem;

/// The tasks of a team in the order in which it does them.
pub(crate) type Day = ArrayVec<u32, MOST_TASKS>;

/// The teams that do a task.
pub(crate) type Crew = ArrayVec<u32, MOST_TEAMS_PER_TASK>;

/// A minute that isn't known yet.
pub(crate) const UNKNOWN: u32 = u32::MAX;

/// When a task can begin in the orders at the earliest and at the latest, how long it takes, and at which place.
#[derive(Clone, Copy)]
pub(crate) struct Timing {
    pub(crate) early: u32,
    pub(crate) late: u32,
    pub(crate) minutes: u32,
    pub(crate) place: u32,
}

impl Timing {
    const NONE: Timing = Timing {
        early: 0,
        late: 0,
        minutes: 0,
        place: 0,
    };

    /// The minutes from the start of this task to that of the next one of a team.
    pub(crate) fn lag(self, facts: &Facts, next: Timing) -> u32 {
        self.minutes
            .saturating_add(facts.way(self.place, next.place))
    }
}

/// A walk along the day of a team that is due, from a place in its order.
#[derive(Clone, Copy, Default)]
pub(crate) struct Walk {
    pub(crate) team: u32,
    pub(crate) at: usize,
}

/// What changed, so that it can be undone.
#[derive(Clone, Copy)]
pub(crate) enum Change {
    /// The first minute of a task was this one.
    Early { task: u32, before: u32 },
    /// The last minute of a task was this one.
    Late { task: u32, before: u32 },
    /// The task stood at the place in the order of the team.
    Left { team: u32, at: usize, task: u32 },
    /// No task stood at the place in the order of the team.
    Entered { team: u32, at: usize, task: u32 },
}

/// The orders of all teams.
#[derive(Drop)]
pub(crate) struct Orders {
    alloc: Global,
    days: Vec<Day>,
    crews: Vec<Crew>,
    timings: Vec<Timing>,
    // When something of a team's day changed last, by the clock.
    changed: Vec<u64>,
    clock: u64,
    // What changed since the clock went on, in order.
    trail: Vec<Change>,
    pub(crate) due: Vec<Walk>,
    // Where tasks were taken out, until it is worked out when the others can begin.
    pub(crate) gaps: Vec<Walk>,
}

impl Orders {
    /// Orders of no task; AllocError where there is no memory.
    pub(crate) fn empty(alloc: Global, instance: &Instance) -> Result<Orders, AllocError> {
        let mut orders = Orders {
            alloc,
            days: Vec::new(alloc),
            crews: Vec::new(alloc),
            timings: Vec::new(alloc),
            changed: Vec::new(alloc),
            clock: 1,
            trail: Vec::new(alloc),
            due: Vec::new(alloc),
            gaps: Vec::new(alloc),
        };
        for _ in 0..instance.teams() {
            orders.days.push(ArrayVec::new())?;
            orders.changed.push(1)?;
        }
        for j in 0..instance.tasks() as u32 {
            orders.crews.push(ArrayVec::new())?;
            orders.timings.push(Timing {
                early: UNKNOWN,
                late: UNKNOWN,
                minutes: instance.task(j).minutes,
                place: instance.task(j).place,
            })?;
        }
        Ok(orders)
    }

    /// The orders of a plan, whose starts are then as early as they can be.
    pub(crate) fn of(
        alloc: Global,
        instance: &Instance,
        facts: &Facts,
        plan: &Plan,
    ) -> Result<Orders, AllocError> {
        let mut orders = Orders::empty(alloc, instance)?;
        let mut turns = ArrayVec::new();
        for k in 0..instance.teams() as u32 {
            fill_turns(plan, k, &mut turns);
            orders.append(k, turns.as_slice())?;
        }
        orders.time_all(facts)?;
        orders.tick();
        Ok(orders)
    }

    // Puts the turns behind the day of team `k`.
    fn append(&mut self, k: u32, turns: &[Turn]) -> Result<(), AllocError> {
        for turn in turns {
            let at = self.day(k).len();
            self.enter(k, at, turn.task)?;
        }
        Ok(())
    }

    /// How many teams there are.
    pub(crate) fn teams(&self) -> u32 {
        self.days.len().min(u32::MAX as usize) as u32
    }

    /// The tasks of team `k` in order.
    pub(crate) fn day(&self, k: u32) -> &[u32] {
        match self.days.get(k as usize) {
            Some(day) => day.as_slice(),
            None => &[],
        }
    }

    /// The task at a place in the order of team `k`.
    pub(crate) fn task_at(&self, k: u32, at: usize) -> Option<u32> {
        self.day(k).get(at).copied()
    }

    /// The task before a place in the order of team `k`.
    pub(crate) fn task_before(&self, k: u32, at: usize) -> Option<u32> {
        self.task_at(k, at.checked_sub(1)?)
    }

    /// The teams that do task `j`.
    pub(crate) fn crew(&self, j: u32) -> &[u32] {
        match self.crews.get(j as usize) {
            Some(crew) => crew.as_slice(),
            None => &[],
        }
    }

    /// Whether a team does task `j`.
    pub(crate) fn is_assigned(&self, j: u32) -> bool {
        !self.crew(j).is_empty()
    }

    /// When task `j` can begin.
    pub(crate) fn timing(&self, j: u32) -> Timing {
        self.timings
            .get(j as usize)
            .copied()
            .unwrap_or(Timing::NONE)
    }

    /// Where task `j` stands in the order of team `k`.
    pub(crate) fn place_of(&self, k: u32, j: u32) -> Option<usize> {
        self.day(k).iter().position(|other| *other == j)
    }

    /// The place behind a task in the order of team `k`, the first one behind none.
    pub(crate) fn place_behind(&self, k: u32, behind: Option<u32>) -> Option<usize> {
        match behind {
            Some(before) => self.place_of(k, before)?.checked_add(1),
            None => Some(0),
        }
    }

    // Puts task `j` at a place in the order of team `k`. Answers whether it could.
    fn write_in(&mut self, k: u32, at: usize, j: u32) -> bool {
        let (Some(day), Some(crew)) = (
            self.days.get_mut(k as usize),
            self.crews.get_mut(j as usize),
        ) else {
            return false;
        };
        if at > day.len() || day.is_full() || crew.is_full() {
            return false;
        }
        day.insert(at, j);
        crew.push(k);
        true
    }

    // Takes the task at a place out of the order of team `k`.
    fn write_out(&mut self, k: u32, at: usize) {
        if let Some(day) = self.days.get_mut(k as usize) {
            if at < day.len() {
                day.remove(at);
            }
        }
    }

    // Takes the last team from task `j`.
    fn pop_team(&mut self, j: u32) -> Option<u32> {
        self.crews.get_mut(j as usize)?.pop()
    }

    // The first minute of task `j` becomes this one. Answers which it was.
    fn write_early(&mut self, j: u32, early: u32) -> Option<u32> {
        let timing = self.timings.get_mut(j as usize)?;
        Some(mem::replace(&mut timing.early, early))
    }

    // The last minute of task `j` becomes this one. Answers which it was.
    fn write_late(&mut self, j: u32, late: u32) -> Option<u32> {
        let timing = self.timings.get_mut(j as usize)?;
        Some(mem::replace(&mut timing.late, late))
    }

    /// Enters task `j` at a place in the order of team `k`. Answers whether it could.
    pub(crate) fn enter(&mut self, team: u32, at: usize, task: u32) -> Result<bool, AllocError> {
        if !self.write_in(team, at, task) {
            return Ok(false);
        }
        self.trail.push(Change::Entered { team, at, task })?;
        Ok(true)
    }

    /// Takes task `j` from the last of its teams. Answers where it stood.
    pub(crate) fn leave_last(&mut self, task: u32) -> Result<Option<Walk>, AllocError> {
        let Some(team) = self.pop_team(task) else {
            return Ok(None);
        };
        let Some(at) = self.place_of(team, task) else {
            return Ok(None);
        };
        self.write_out(team, at);
        self.trail.push(Change::Left { team, at, task })?;
        Ok(Some(Walk { team, at }))
    }

    /// Sets when task `j` can begin at the earliest. Answers whether that changed.
    pub(crate) fn set_early(&mut self, task: u32, early: u32) -> Result<bool, AllocError> {
        match self.write_early(task, early) {
            Some(before) if before != early => {
                self.trail.push(Change::Early { task, before })?;
                Ok(true)
            }
            _ => Ok(false),
        }
    }

    /// Sets when task `j` can begin at the latest. Answers whether that changed.
    pub(crate) fn set_late(&mut self, task: u32, late: u32) -> Result<bool, AllocError> {
        match self.write_late(task, late) {
            Some(before) if before != late => {
                self.trail.push(Change::Late { task, before })?;
                Ok(true)
            }
            _ => Ok(false),
        }
    }

    // Undoes a change.
    fn undo(&mut self, change: Change) {
        match change {
            Change::Early { task, before } => {
                self.write_early(task, before);
            }
            Change::Late { task, before } => {
                self.write_late(task, before);
            }
            Change::Left { team, at, task } => {
                self.write_in(team, at, task);
            }
            Change::Entered { team, at, task } => {
                self.write_out(team, at);
                self.pop_team(task);
            }
        }
    }

    // What changed since the clock went on, in order.
    pub(crate) fn trail(&self) -> &[Change] {
        self.trail.as_slice()
    }

    /// How many changes were made since the clock went on.
    pub(crate) fn changes(&self) -> usize {
        self.trail.len()
    }

    /// Undoes all changes but so many, the latest first.
    pub(crate) fn undo_to(&mut self, changes: usize) {
        for _ in changes..self.trail.len() {
            let Some(change) = self.trail.pop() else {
                return;
            };
            self.undo(change);
        }
    }

    /// The clock goes on, and what changed before stays.
    pub(crate) fn tick(&mut self) -> u64 {
        self.trail.clear();
        self.gaps.clear();
        self.clock = self.clock.saturating_add(1);
        self.clock
    }

    /// Notes that something of the day of team `k` changes.
    pub(crate) fn note_change(&mut self, k: u32) {
        if let Some(changed) = self.changed.get_mut(k as usize) {
            *changed = self.clock;
        }
    }

    /// Whether something of the day of team `k` changed at this time or later.
    pub(crate) fn changed_since(&self, k: u32, time: u64) -> bool {
        self.changed.get(k as usize).copied().unwrap_or(0) >= time
    }

    /// The plan of the orders, each task begun as early as it can be; AllocError where there is no memory.
    pub(crate) fn plan(&self, instance: &Instance) -> Result<Plan, AllocError> {
        let mut plan = Plan::empty(self.alloc, instance.tasks())?;
        for j in 0..instance.tasks() as u32 {
            if self.is_assigned(j) {
                let mut crew = self.crew(j).to_vec(self.alloc)?;
                crew.sort_unstable();
                plan.assign(j, self.timing(j).early, crew.as_slice())?;
            }
        }
        Ok(plan)
    }
}
