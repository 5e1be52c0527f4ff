// A reader of the lines of one leaf, from its prices to its last potentials.
ghost use Rattle.std.specs.Prelude.{◌≡◌, ◌≤◌, ◌<◌, ◌+◌, ℕ, suc, ℤ, List, [], length, IfOk, IfSome};
ghost use Rattle.crew_terms.specs.Limits.{Limits as NodeLimits, tasks_in, teams_in};
ghost use Rattle.dossier_terms.specs.Dossier.{Leaf, Potentials};
ghost use Rattle.crew_terms.specs.Minutes.{minute_count};
ghost use Rattle.dossier_terms.specs.Reading.{Prices as PriceDue, LeafSite};
ghost use Rattle.dossier_terms.specs.LeafTable.{after_extra, after_phi, after_table, extra_row, price_row, worth_row};
ghost use Rattle.leaf_check.specs.Keys.{AreExtrasLeft, ArePhisLeft, IsExtraDue, IsOpenTask};
ghost use Rattle.leaf_check.specs.Reader.{HasPotentials, HasPotentialsBefore, HasReadLeaf, HasReadUpTo, IsGoalAt, IsLeafStep, IsReady, IsTableStep, StandsFor, LeafTells, priced_leaf};

use crate::keys::{counted_minutes, next_open, next_priced, required_count};
use crate::prices::{set_extras, set_prices};
use crate::rows::set_potentials;
use crate::runs::{are_runs, set_runs};
use cert_format::{fault_is_refused, read_extra, read_phi, read_price, read_steps, read_worth};
use crew_laws::minutes_are_permitted;
use dossier_terms::{DossierForm, Reason};
use field_table::LineWords;
use node_limits::Limits;
use potentials::{LocalVerdict, Prices, Room, Table, bound, local, proves};
use std::alloc::{AllocError, Global};

/// In which form a leaf is written, and what it has to prove: that every plan of its node leaves at least `bound` tasks
/// unassigned and, where it is closed, at least `unassigned`.
#[derive(Clone, Copy, Debug, PartialEq, Eq)]
pub struct Goal {
    pub form: DossierForm,
    pub bound: u32,
    pub unassigned: u32,
    pub is_closed: bool,
}

// The line of a leaf that is due.
#[derive(Clone, Copy)]
enum LeafDue {
    // The prices of the tasks.
    Price,
    // The prices of a task's required pairs.
    Extra { task: u32 },
    // A team's worth.
    Worth { team: u32 },
    // A team's potentials of a task.
    Phi { team: u32, task: u32 },
}

/// What is said of a line that breaks no rule.
#[derive(Clone, Copy, Debug, PartialEq, Eq)]
pub enum LeafStep {
    /// One more line of the leaf is due.
    More,
    /// It is the last one of the leaf.
    Done,
}

/// Reads the lines of one leaf with prices after another. It keeps the potentials of one team at a time.
///
/// In contracts: it is ready for the leaves of some limits, and it stands for a state of the table of lines.
#[derive(Drop)]
pub struct LeafReader {
    prices: Prices,
    table: Table,
    room: Room,
    // A worth for each team; those of the teams so far are the leaf's.
    worths: Vec<i64>,
    due: LeafDue,
}

impl LeafReader {
    /// A reader with room for each leaf over the instance, at the line of prices of the first one; no other call takes
    /// memory.
    pub fn open(alloc: Global, limits: &Limits<'_>) -> Result<LeafReader, AllocError>
        ensures ready { IfOk result (IsReady limits.now.limits) }
        ensures stands { IfOk result (λ r. (a : LeafSite) → StandsFor a r (PriceDue a)) }
    {
        let prices = Prices::zero(alloc, limits)?;
        let table = Table::reserve(alloc, limits.instance())?;
        let room = Room::reserve(alloc, limits.instance())?;
        let worths = vec![in alloc; 0; limits.instance().teams()]?;
        Ok(LeafReader {
            prices,
            table,
            room,
            worths,
            due: LeafDue::Price,
        })
    }

    /// Begins a leaf: its line of prices is due. The limits may be others than before, over the same instance.
    pub fn begin(&mut self)
        ensures ready { (n m : NodeLimits) → m.instance ≡ n.instance
            → IsReady n self.old → IsReady m self.new }
        ensures stands { (a : LeafSite) → StandsFor a self.new (PriceDue a) }
        ensures rest { self.new ≡ record self.old { due = LeafDue.Price } }
    {
        self.due = LeafDue::Price;
    }

    /// Judges the line that is due, by the table of lines. A team's rules are tested at its last line: `Potential` tells
    /// the first task whose potentials are too low, and then `Worth` that the worth is; `Bound` is told at the last line
    /// of the leaf, where it does not prove what it has to. After `Done` and after a reason only `begin` goes on: what is
    /// said of a line before that means nothing.
    pub fn line(
        &mut self,
        limits: &Limits<'_>,
        goal: Goal,
        words: LineWords<'_>,
    ) -> Result<LeafStep, Reason>
        requires { IsReady limits.now.limits self.old }
        ensures ready { IsReady limits.now.limits self.new }
        ensures judged { IsLeafStep limits.now.limits goal words.entry self.old self.new result }
    {
        match self.due {
            LeafDue::Price => self.price_line(limits, goal, words),
            LeafDue::Extra { task } => self.extra_line(limits, goal, task, words),
            LeafDue::Worth { team } => self.worth_line(limits, goal, team, words),
            LeafDue::Phi { team, task } => { self.potentials_line(limits, goal, team, task, words) }
        }
    }

    /// The line `price`.
    fn price_line(
        &mut self,
        limits: &Limits<'_>,
        goal: Goal,
        words: LineWords<'_>,
    ) -> Result<LeafStep, Reason>
        requires { IsReady limits.now.limits self.old }
        ensures ready { IsReady limits.now.limits self.new }
        ensures tells { (a : LeafSite) → IsGoalAt a limits.now.limits goal
            → LeafTells a (price_row a words.entry) result self.new }
    {
        fault_is_refused();
        let tasks = limits.instance().tasks() as u32;
        let prices = read_price(words, tasks)?;
        set_prices(&mut self.prices, limits, &prices);
        self.after_extra(limits, goal, next_priced(limits, 0))
    }

    /// A line `extra`.
    fn extra_line(
        &mut self,
        limits: &Limits<'_>,
        goal: Goal,
        task: u32,
        words: LineWords<'_>,
    ) -> Result<LeafStep, Reason>
        requires ready { IsReady limits.now.limits self.old }
        requires task { task < tasks_in limits.now.limits }
        ensures ready { IsReady limits.now.limits self.new }
        ensures tells { (a : LeafSite) (prices : List ℤ) (rows : List (List ℤ)) (js : List ℕ)
            → IsGoalAt a limits.now.limits goal
            → HasReadLeaf limits.now.limits self.old (priced_leaf prices rows)
            → IsExtraDue limits.now.limits rows task js
            → LeafTells a (extra_row a (priced_leaf prices rows) task js words.entry)
            result self.new }
    {
        fault_is_refused();
        let count = required_count(limits, task);
        let prices = read_extra(words, task, count)?;
        set_extras(&mut self.prices, limits, task, &prices);
        self.after_extra(limits, goal, next_priced(limits, task as usize + 1))
    }

    /// What is said after a line of prices, where this is the next task with required pairs.
    fn after_extra(
        &mut self,
        limits: &Limits<'_>,
        goal: Goal,
        next: Option<u32>,
    ) -> Result<LeafStep, Reason>
        requires ready { IsReady limits.now.limits self.old }
        requires next { IfSome next (λ j. j < tasks_in limits.now.limits) }
        ensures ready { IsReady limits.now.limits self.new }
        ensures tells { (a : LeafSite) (prices : List ℤ) (rows : List (List ℤ)) (js : List ℕ)
            → IsGoalAt a limits.now.limits goal
            → HasReadLeaf limits.now.limits self.old (priced_leaf prices rows)
            → AreExtrasLeft limits.now.limits rows next js
            → LeafTells a (after_extra a (priced_leaf prices rows) js) result self.new }
    {
        match next {
            Some(task) => {
                self.due = LeafDue::Extra { task };
                Ok(LeafStep::More)
            }
            None => self.after_table(limits, goal, 0),
        }
    }

    /// A line `worth`.
    fn worth_line(
        &mut self,
        limits: &Limits<'_>,
        goal: Goal,
        team: u32,
        words: LineWords<'_>,
    ) -> Result<LeafStep, Reason>
        requires ready { IsReady limits.now.limits self.old }
        requires team { team < teams_in limits.now.limits }
        ensures ready { IsReady limits.now.limits self.new }
        ensures tells { (a : LeafSite) (leaf : Leaf) (left : ℕ) → IsGoalAt a limits.now.limits goal
            → HasReadUpTo limits.now.limits self.old leaf team (suc left)
            → LeafTells a (worth_row a leaf left words.entry) result self.new }
    {
        fault_is_refused();
        minutes_are_permitted();
        let worth = read_worth(words)?;
        self.worths[team as usize] = worth;
        self.after_phi(limits, goal, team, next_open(limits, team, 0))
    }

    /// A line of a team's potentials at a task, as the form has it.
    fn potentials_line(
        &mut self,
        limits: &Limits<'_>,
        goal: Goal,
        team: u32,
        task: u32,
        words: LineWords<'_>,
    ) -> Result<LeafStep, Reason>
        requires ready { IsReady limits.now.limits self.old }
        requires team { team < teams_in limits.now.limits }
        requires task { task < tasks_in limits.now.limits }
        requires minutes { 0 < minute_count limits.now.limits team task }
        ensures ready { IsReady limits.now.limits self.new }
        ensures tells { IsTableStep limits.now.limits goal team task words.entry
            self.old self.new result }
    {
        match goal.form {
            DossierForm::One => self.phi_line(limits, goal, team, task, words),
            DossierForm::Two => self.steps_line(limits, goal, team, task, words),
        }
    }

    /// A line `phi`.
    fn phi_line(
        &mut self,
        limits: &Limits<'_>,
        goal: Goal,
        team: u32,
        task: u32,
        words: LineWords<'_>,
    ) -> Result<LeafStep, Reason>
        requires form { goal.form ≡ DossierForm.One }
        requires ready { IsReady limits.now.limits self.old }
        requires team { team < teams_in limits.now.limits }
        requires task { task < tasks_in limits.now.limits }
        requires minutes { 0 < minute_count limits.now.limits team task }
        ensures ready { IsReady limits.now.limits self.new }
        ensures tells { IsTableStep limits.now.limits goal team task words.entry
            self.old self.new result }
    {
        fault_is_refused();
        minutes_are_permitted();
        let (first, count) = counted_minutes(limits, team, task);
        let values = read_phi(words, task, count)?;
        set_potentials(&mut self.table, task, first, &values);
        self.after_phi(
            limits,
            goal,
            team,
            next_open(limits, team, task as usize + 1),
        )
    }

    /// A line `steps`.
    fn steps_line(
        &mut self,
        limits: &Limits<'_>,
        goal: Goal,
        team: u32,
        task: u32,
        words: LineWords<'_>,
    ) -> Result<LeafStep, Reason>
        requires form { goal.form ≡ DossierForm.Two }
        requires ready { IsReady limits.now.limits self.old }
        requires team { team < teams_in limits.now.limits }
        requires task { task < tasks_in limits.now.limits }
        requires minutes { 0 < minute_count limits.now.limits team task }
        ensures ready { IsReady limits.now.limits self.new }
        ensures tells { IsTableStep limits.now.limits goal team task words.entry
            self.old self.new result }
    {
        fault_is_refused();
        minutes_are_permitted();
        let (first, count) = counted_minutes(limits, team, task);
        let pairs = read_steps(words, task)?;
        let past = first + count;
        if !are_runs(&pairs, first, past) {
            return Err(Reason::Steps);
        }
        set_runs(&mut self.table, task, past, &pairs);
        let later = task as usize + 1;
        self.after_phi(limits, goal, team, next_open(limits, team, later))
    }

    /// What is said after a line of a team, where this is the next task that it may begin.
    fn after_phi(
        &mut self,
        limits: &Limits<'_>,
        goal: Goal,
        team: u32,
        next: Option<u32>,
    ) -> Result<LeafStep, Reason>
        requires ready { IsReady limits.now.limits self.old }
        requires team { team < teams_in limits.now.limits }
        requires next { IfSome next (IsOpenTask limits.now.limits team) }
        ensures ready { IsReady limits.now.limits self.new }
        ensures tells { (a : LeafSite) (leaf : Leaf) (left : ℕ) (table : Potentials) (js : List ℕ)
            → IsGoalAt a limits.now.limits goal
            → HasReadUpTo limits.now.limits self.old leaf team (suc left)
            → HasPotentialsBefore limits.now.limits self.old team table next
            → ArePhisLeft limits.now.limits team table.phi next js
            → LeafTells a (after_phi a leaf left table js) result self.new }
    {
        match next {
            Some(task) => {
                self.due = LeafDue::Phi { team, task };
                Ok(LeafStep::More)
            }
            None => self.judge_team(limits, goal, team),
        }
    }

    /// What is said after the last line of a team: its rules are tested.
    fn judge_team(&mut self, limits: &Limits<'_>, goal: Goal, team: u32) -> Result<LeafStep, Reason>
        requires ready { IsReady limits.now.limits self.old }
        requires team { team < teams_in limits.now.limits }
        ensures ready { IsReady limits.now.limits self.new }
        ensures tells { (a : LeafSite) (leaf : Leaf) (left : ℕ) (table : Potentials)
            → IsGoalAt a limits.now.limits goal
            → HasReadUpTo limits.now.limits self.old leaf team (suc left)
            → HasPotentials limits.now.limits self.old team table (tasks_in limits.now.limits)
            → LeafTells a (after_phi a leaf left table []) result self.new }
    {
        let worth = self.worths[team as usize];
        match local(
            limits,
            team,
            &self.prices,
            &self.table,
            &mut self.room,
            worth,
        ) {
            LocalVerdict::Holds => self.after_table(limits, goal, team as usize + 1),
            LocalVerdict::Low { task } => Err(Reason::Potential(team, task)),
            LocalVerdict::Worth => Err(Reason::Worth(team)),
        }
    }

    /// What is said after the lines of so many teams.
    fn after_table(
        &mut self,
        limits: &Limits<'_>,
        goal: Goal,
        teams: usize,
    ) -> Result<LeafStep, Reason>
        requires ready { IsReady limits.now.limits self.old }
        requires teams { teams ≤ teams_in limits.now.limits }
        ensures ready { IsReady limits.now.limits self.new }
        ensures tells { (a : LeafSite) (leaf : Leaf) (left : ℕ) → IsGoalAt a limits.now.limits goal
            → HasReadUpTo limits.now.limits self.old leaf teams left
            → LeafTells a (after_table a leaf left) result self.new }
    {
        if teams < limits.instance().teams() {
            self.due = LeafDue::Worth { team: teams as u32 };
            return Ok(LeafStep::More);
        }
        self.judge_bound(limits, goal)
    }

    /// What is said after the last line of a leaf: what it proves is tested.
    fn judge_bound(&self, limits: &Limits<'_>, goal: Goal) -> Result<LeafStep, Reason>
        requires { IsReady limits.now.limits self.now }
        ensures { (a : LeafSite) (leaf : Leaf) → IsGoalAt a limits.now.limits goal
            → HasReadLeaf limits.now.limits self.now leaf
            → length leaf.tables ≡ teams_in limits.now.limits
            → LeafTells a (after_table a leaf 0) result self.now }
    {
        let proved = bound(limits, &self.prices, &self.worths);
        if !proves(proved, goal.bound) {
            return Err(Reason::Bound);
        }
        if goal.is_closed && !proves(proved, goal.unassigned) {
            return Err(Reason::Bound);
        }
        Ok(LeafStep::Done)
    }
}
