// What waits for what.
ghost use Rattle.std.specs.Prelude.{◌≡◌, ◌<◌, length};
ghost use Rattle.delay_wave.specs.Waits.{holder_of, start_of};

use std::marker::Model;

/// When a task really begins, and the task that it waits for, if it begins later than planned.
#[derive(Clone, Copy, Debug, PartialEq, Eq)]
pub struct Wait {
    pub start: u32,
    pub held_by: Option<u32>,
}

/// For each task of a plan nothing, or when it really begins and the task that it waits for.
#[derive(Drop)]
pub struct Waits {
    waits: Vec<Option<Wait>>,
}

impl Model for Waits {
    ghost use Rattle.std.specs.Prelude.{List, Option};
    ghost use Rattle.delay_wave.specs.declared.waits.Wait.{Wait as Planned};

    ghost Value = { List (Option Planned) };

    ghost view = { λ a. a.waits.items };
}

impl Waits {
    pub(crate) fn of(waits: Vec<Option<Wait>>) -> Waits
        ensures { result ≡ waits.items }
    {
        Waits { waits }
    }

    /// How many tasks the plan is for.
    pub fn len(&self) -> usize
        ensures { result ≡ length self.now }
    {
        self.waits.len()
    }

    /// The minute at which task `i` really begins; None exactly where it is unassigned.
    pub fn start(&self, i: u32) -> Option<u32>
        requires { i < length self.now }
        ensures { result ≡ start_of self.now i }
    {
        let wait = self.waits[i as usize]?;
        Some(wait.start)
    }

    /// The task that task `i` waits for; None exactly where it is unassigned or begins as planned.
    pub fn held_by(&self, i: u32) -> Option<u32>
        requires { i < length self.now }
        ensures { result ≡ holder_of self.now i }
    {
        let wait = self.waits[i as usize]?;
        wait.held_by
    }
}
