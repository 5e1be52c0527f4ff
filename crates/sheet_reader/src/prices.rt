// The lines of the prices, and what is said behind them and behind the teams.
ghost use Rattle.std.specs.Prelude.{◌≡◌, ◌+◌, ℕ, [], List, length};
ghost use Rattle.dossier_terms.specs.Dossier.{Potentials};
ghost use Rattle.sheet_terms.specs.Table.{after_price, after_team};
ghost use Rattle.sheet_reader.specs.Reader.{HasPrices, HasTables, HasWorths, IsAwaited, IsSheetStep, SheetTells, sheet_of};

use crate::reader::{SheetDue, SheetReader, SheetStep};
use dossier_terms::Reason;
use field_table::LineWords;
use line_in::Refusal;
use minute_prices::minute_bound;
use node_limits::Limits;
use potentials::proves;
use sheet_laws::prices_are_read_in_turn;
use sheet_lines::prices::number_row;
use sheet_lines::words::read_minutes;
use std::alloc::Global;

impl SheetReader {
    /// A line of a task's prices.
    pub(crate) fn price_line(
        &mut self,
        alloc: Global,
        limits: &Limits<'_>,
        task: u32,
        words: LineWords<'_>,
    ) -> Result<SheetStep, Refusal>
        requires due { self.old.due ≡ SheetDue.Price task }
        requires awaited { IsAwaited limits.now.limits.instance self.old }
        ensures { IsSheetStep limits.now.limits.instance words.entry self.old self.new result }
    {
        prices_are_read_in_turn();
        let prices = read_minutes(words, limits.instance(), task)?;
        let row = number_row(alloc, &prices)?;
        self.prices.push(row)?;
        self.after_price(limits, task as usize + 1)
    }

    /// What is said after the prices of so many tasks.
    pub(crate) fn after_price(
        &mut self,
        limits: &Limits<'_>,
        tasks: usize,
    ) -> Result<SheetStep, Refusal>
        requires prices { HasPrices limits.now.limits.instance self.old tasks }
        ensures { let i = limits.now.limits.instance in
            (budget left : ℕ) → tasks + left ≡ length i.tasks
            → SheetTells i budget (after_price (sheet_of i budget self.old []) left) result self.new }
    {
        prices_are_read_in_turn();
        if tasks < limits.instance().tasks() {
            self.due = SheetDue::Price { task: tasks as u32 };
            return Ok(SheetStep::More);
        }
        self.after_team(limits, 0)
    }

    /// What is said after the lines of so many teams.
    pub(crate) fn after_team(
        &mut self,
        limits: &Limits<'_>,
        teams: usize,
    ) -> Result<SheetStep, Refusal>
        requires worths { HasWorths limits.now.limits.instance self.old teams }
        ensures { let i = limits.now.limits.instance in
            (budget left : ℕ) (tables : List Potentials) → HasTables i self.old tables left
            → SheetTells i budget (after_team (sheet_of i budget self.old tables) left) result self.new }
    {
        if teams < limits.instance().teams() {
            self.due = SheetDue::Worth { team: teams as u32 };
            return Ok(SheetStep::More);
        }
        self.judge_bound(limits)
    }

    /// What is said after the lines of the last team: the prices must prove the bound.
    fn judge_bound(&mut self, limits: &Limits<'_>) -> Result<SheetStep, Refusal>
        requires { HasWorths limits.now.limits.instance self.old
            (length limits.now.limits.instance.teams) }
        ensures { let i = limits.now.limits.instance in
            (budget : ℕ) (tables : List Potentials) → HasTables i self.old tables 0
            → SheetTells i budget (after_team (sheet_of i budget self.old tables) 0) result self.new }
    {
        let proved = minute_bound(
            limits.instance(),
            &self.possible,
            &self.prices,
            &self.worths,
        );
        if !proves(proved, self.bound) {
            return Err(Refusal::No(Reason::Bound));
        }
        self.due = SheetDue::End;
        Ok(SheetStep::More)
    }
}
