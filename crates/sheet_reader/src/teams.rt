// The lines of a team, and what is said behind them.
ghost use Rattle.std.specs.Prelude.{◌≡◌, ◌<◌, ℕ, suc, [], List, length};
ghost use Rattle.crew_terms.specs.Limits.{root_limits, teams_in};
ghost use Rattle.dossier_terms.specs.Dossier.{Potentials};
ghost use Rattle.sheet_lines.specs.Rows.{HasRowsBefore, open_from};
ghost use Rattle.sheet_terms.specs.Table.{after_steps};
ghost use Rattle.minute_rules.specs.Rules.{AreTeamRows};
ghost use Rattle.sheet_reader.specs.Reader.{HasTable, HasTables, HasWorths, IsAwaited, IsSheetStep, SheetTells, sheet_of};

use crate::reader::{SheetDue, SheetReader, SheetStep};
use cert_format::{read_steps, read_worth};
use dossier_terms::Reason;
use field_table::LineWords;
use leaf_check::keys::counted_minutes;
use leaf_check::runs::are_runs;
use line_in::Refusal;
use minute_rules::minute_rules;
use node_limits::Limits;
use potentials::LocalVerdict;
use sheet_lines::TeamRows;
use sheet_lines::runs::run_values;
use std::alloc::Global;

impl SheetReader {
    /// A line `worth`.
    pub(crate) fn worth_line(
        &mut self,
        alloc: Global,
        limits: &Limits<'_>,
        team: u32,
        words: LineWords<'_>,
    ) -> Result<SheetStep, Refusal>
        requires due { self.old.due ≡ SheetDue.Worth team }
        requires root { limits.now.limits ≡ root_limits limits.now.limits.instance }
        requires awaited { IsAwaited limits.now.limits.instance self.old }
        ensures { IsSheetStep limits.now.limits.instance words.entry self.old self.new result }
    {
        let worth = read_worth(words)?;
        self.worth = worth;
        self.rows = TeamRows::new(alloc);
        self.after_row(alloc, limits, team)
    }

    /// A line `steps`.
    pub(crate) fn steps_line(
        &mut self,
        alloc: Global,
        limits: &Limits<'_>,
        team: u32,
        task: u32,
        words: LineWords<'_>,
    ) -> Result<SheetStep, Refusal>
        requires due { self.old.due ≡ SheetDue.Steps team task }
        requires root { limits.now.limits ≡ root_limits limits.now.limits.instance }
        requires awaited { IsAwaited limits.now.limits.instance self.old }
        ensures { IsSheetStep limits.now.limits.instance words.entry self.old self.new result }
    {
        let (first, count) = counted_minutes(limits, team, task);
        let pairs = read_steps(words, task)?;
        let past = first + count;
        if !are_runs(&pairs, first, past) {
            return Err(Refusal::No(Reason::Steps));
        }
        let row = run_values(alloc, &pairs, past)?;
        self.rows.push(row)?;
        self.after_row(alloc, limits, team)
    }

    /// What is said after a line of the next team, whose next potentials are those of the next task that it may begin.
    fn after_row(
        &mut self,
        alloc: Global,
        limits: &Limits<'_>,
        team: u32,
    ) -> Result<SheetStep, Refusal>
        requires root { limits.now.limits ≡ root_limits limits.now.limits.instance }
        requires worths { HasWorths limits.now.limits.instance self.old team }
        requires known { team < teams_in limits.now.limits }
        requires begun { (table : Potentials) × HasTable limits.now.limits.instance self.old team table }
        ensures { let i = limits.now.limits.instance in
            (budget left : ℕ) (tables : List Potentials) (table : Potentials)
            → HasTables i self.old tables (suc left) → HasTable i self.old team table
            → SheetTells i budget (after_steps (sheet_of i budget self.old tables) left table
            (open_from (root_limits i) team (length self.old.rows))) result self.new }
    {
        match self.rows.pass_closed(alloc, limits, team)? {
            Some(task) => {
                self.due = SheetDue::Steps { team, task };
                Ok(SheetStep::More)
            }
            None => self.judge_team(limits, team),
        }
    }

    /// What is said after the last line of the next team: its rules are tested.
    fn judge_team(&mut self, limits: &Limits<'_>, team: u32) -> Result<SheetStep, Refusal>
        requires root { limits.now.limits ≡ root_limits limits.now.limits.instance }
        requires worths { HasWorths limits.now.limits.instance self.old team }
        requires known { team < teams_in limits.now.limits }
        requires rows { AreTeamRows limits.now.limits team self.old.rows }
        ensures { let i = limits.now.limits.instance in
            (budget left : ℕ) (tables : List Potentials) (table : Potentials)
            → HasTables i self.old tables (suc left) → HasTable i self.old team table
            → SheetTells i budget (after_steps (sheet_of i budget self.old tables) left table [])
            result self.new }
    {
        match minute_rules(
            limits,
            team,
            self.prices.rows(),
            self.rows.rows(),
            &mut self.room,
            self.worth,
        ) {
            LocalVerdict::Holds => {
                self.worths.push(self.worth)?;
                self.after_team(limits, team as usize + 1)
            }
            LocalVerdict::Low { task } => Err(Refusal::No(Reason::Potential(team, task))),
            LocalVerdict::Worth => Err(Refusal::No(Reason::Worth(team))),
        }
    }
}
