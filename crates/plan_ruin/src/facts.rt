// What a search looks up of an instance, in tables. A lookup of what there isn't gives a harmless value.
ghost use Rattle.std.specs.Prelude.{◌<◌, length};

use crew_instance::{Instance, Task};
use std::alloc::{AllocError, Global};

/// The first and the last minute at which a task may begin, none where the first is the later one.
#[derive(Clone, Copy)]
pub(crate) struct Span {
    pub(crate) first: u32,
    pub(crate) last: u32,
}

impl Span {
    // No minute.
    const NONE: Span = Span { first: 1, last: 0 };

    /// Whether it has no minute.
    pub(crate) fn is_empty(self) -> bool {
        self.first > self.last
    }
}

/// A team that may do a task, and the minutes at which it may begin it.
#[derive(Clone, Copy)]
pub(crate) struct Chance {
    pub(crate) team: u32,
    pub(crate) span: Span,
}

/// The tables of an instance.
#[derive(Drop)]
pub(crate) struct Facts {
    tasks: usize,
    teams: u32,
    places: usize,
    // For each team and each task the minutes at which it may begin it.
    spans: Vec<Span>,
    // The minutes from each place to each place.
    ways: Vec<u32>,
    // How many teams each task needs.
    wanted: Vec<u32>,
    // The minutes at which each task may begin.
    windows: Vec<Span>,
    // Whether each task has a frozen job.
    frozen: Vec<bool>,
    // The teams that may do each task, by task, and where those of each begin.
    chances: Vec<Chance>,
    begins: Vec<usize>,
}

// The minutes at which team `k` may begin task `j`: its frozen start alone, if it has one with the team.
fn span_of(instance: &Instance, k: u32, j: u32) -> Span
    requires team { k < length instance.now.teams }
    requires task { j < length instance.now.tasks }
{
    if let Some((start, teams)) = instance.frozen(j) {
        let only = Span {
            first: start,
            last: start,
        };
        return if teams.contains(&k) { only } else { Span::NONE };
    }
    if !instance.qualified(k, j) {
        return Span::NONE;
    }
    let team = instance.team(k);
    let task = instance.task(j);
    let there = instance.travel(team.home, task.place);
    let back = instance.travel(task.place, team.home);
    let Some(latest) = team.until.checked_sub(task.minutes.saturating_add(back)) else {
        return Span::NONE;
    };
    Span {
        first: task.earliest.max(team.from.saturating_add(there)),
        last: task.latest.min(latest),
    }
}

impl Facts {
    /// The tables of the instance; AllocError where there is no memory.
    pub(crate) fn of(alloc: Global, instance: &Instance) -> Result<Facts, AllocError> {
        let mut facts = Facts {
            tasks: instance.tasks(),
            teams: instance.teams() as u32,
            places: instance.places(),
            spans: Vec::new(alloc),
            ways: Vec::new(alloc),
            wanted: Vec::new(alloc),
            windows: Vec::new(alloc),
            frozen: Vec::new(alloc),
            chances: Vec::new(alloc),
            begins: Vec::new(alloc),
        };
        for k in 0..instance.teams() as u32 {
            facts.add_spans(instance, k)?;
        }
        for a in 0..instance.places() as u32 {
            facts.add_ways(instance, a)?;
        }
        facts.add_tasks(instance)?;
        facts.add_all_chances()?;
        Ok(facts)
    }

    // Adds the minutes at which team `k` may begin each task.
    fn add_spans(&mut self, instance: &Instance, k: u32) -> Result<(), AllocError>
        requires { k < length instance.now.teams }
    {
        for j in 0..instance.tasks() as u32 {
            self.spans.push(span_of(instance, k, j))?;
        }
        Ok(())
    }

    // Adds the minutes from place `a` to each place.
    fn add_ways(&mut self, instance: &Instance, a: u32) -> Result<(), AllocError>
        requires { a < length instance.now.places }
    {
        for b in 0..instance.places() as u32 {
            self.ways.push(instance.travel(a, b))?;
        }
        Ok(())
    }

    // Adds what each task needs.
    fn add_tasks(&mut self, instance: &Instance) -> Result<(), AllocError> {
        for j in 0..instance.tasks() as u32 {
            let task: &Task = instance.task(j);
            self.wanted.push(task.teams)?;
            self.windows.push(Span {
                first: task.earliest,
                last: task.latest,
            })?;
            self.frozen.push(instance.frozen(j).is_some())?;
        }
        Ok(())
    }

    // Adds the teams that may do task `j`.
    fn add_chances(&mut self, j: u32) -> Result<(), AllocError> {
        for team in 0..self.teams {
            let span = self.span(team, j);
            if !span.is_empty() {
                self.chances.push(Chance { team, span })?;
            }
        }
        Ok(())
    }

    // Adds the teams that may do each task.
    fn add_all_chances(&mut self) -> Result<(), AllocError> {
        for j in 0..self.tasks() {
            self.begins.push(self.chances.len())?;
            self.add_chances(j)?;
        }
        self.begins.push(self.chances.len())?;
        Ok(())
    }

    /// The minutes at which team `k` may begin task `j`.
    pub(crate) fn span(&self, k: u32, j: u32) -> Span {
        let at = (k as usize)
            .wrapping_mul(self.tasks)
            .wrapping_add(j as usize);
        self.spans.get(at).copied().unwrap_or(Span::NONE)
    }

    /// The minutes from place `a` to place `b`.
    pub(crate) fn way(&self, a: u32, b: u32) -> u32 {
        let at = (a as usize)
            .wrapping_mul(self.places)
            .wrapping_add(b as usize);
        self.ways.get(at).copied().unwrap_or(0)
    }

    /// How many tasks there are.
    pub(crate) fn tasks(&self) -> u32 {
        self.tasks.min(u32::MAX as usize) as u32
    }

    /// How many teams task `j` needs.
    pub(crate) fn wanted(&self, j: u32) -> usize {
        self.wanted.get(j as usize).copied().unwrap_or(1) as usize
    }

    /// The minutes at which task `j` may begin.
    pub(crate) fn window(&self, j: u32) -> Span {
        self.windows.get(j as usize).copied().unwrap_or(Span::NONE)
    }

    // Where the teams that may do task `j` begin.
    fn begin(&self, j: usize) -> usize {
        self.begins.get(j).copied().unwrap_or(0)
    }

    /// The teams that may do task `j`.
    pub(crate) fn chances(&self, j: u32) -> &[Chance] {
        let from = self.begin(j as usize);
        let until = self.begin(j as usize + 1);
        self.chances.get(from..until).unwrap_or(&[])
    }

    /// Whether task `j` has a frozen job.
    pub(crate) fn is_frozen(&self, j: u32) -> bool {
        self.frozen.get(j as usize).copied().unwrap_or(true)
    }
}
