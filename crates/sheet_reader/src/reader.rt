// The reader, and the first and the last of its lines.
ghost use Rattle.std.specs.Prelude.{◌≡◌, ℕ, IfOk};
ghost use Rattle.crew_terms.specs.Instance.{Instance};
ghost use Rattle.crew_terms.specs.Limits.{root_limits};
ghost use Rattle.sheet_terms.specs.Reading.{Bounds};
ghost use Rattle.sheet_reader.specs.Reader.{IsAwaited, IsSheetStep, StandsFor};

use cert_format::read_end;
use field_table::LineWords;
use line_in::Refusal;
use minute_prices::{MinutePrices, PossibleMinutes};
use minute_rules::RuleRoom;
use node_limits::Limits;
use sheet_laws::prices_are_read_in_turn;
use sheet_lines::TeamRows;
use sheet_lines::words::read_bound;
use std::alloc::{AllocError, Global};

// The line of a sheet that is due.
#[derive(Clone, Copy)]
pub(crate) enum SheetDue {
    // The line `bound`.
    Bound,
    // The prices of a task.
    Price { task: u32 },
    // A team's worth.
    Worth { team: u32 },
    // A team's potentials of a task.
    Steps { team: u32, task: u32 },
    // The line `end`.
    End,
}

/// What is said of a line that breaks no rule.
#[derive(Clone, Copy, Debug, PartialEq, Eq)]
pub enum SheetStep {
    /// One more line of the sheet is due.
    More,
    /// It is the last one of the sheet.
    Whole,
}

/// Reads the lines of one sheet behind its instance. It keeps the prices, the worths, and the potentials of one team at a time.
///
/// In contracts: it stands for a state of the table of a sheet's lines.
#[derive(Drop)]
pub struct SheetReader {
    pub(crate) bound: u32,
    pub(crate) prices: MinutePrices,
    pub(crate) possible: PossibleMinutes,
    // Those of the teams so far.
    pub(crate) worths: Vec<i64>,
    // What is read of the next team.
    pub(crate) worth: i64,
    pub(crate) rows: TeamRows,
    pub(crate) room: RuleRoom,
    pub(crate) due: SheetDue,
}

impl SheetReader {
    /// A reader of a sheet over the instance of these limits, which are those of the root; its line `bound` is due.
    pub fn open(alloc: Global, limits: &Limits<'_>) -> Result<SheetReader, AllocError>
        requires { limits.now.limits ≡ root_limits limits.now.limits.instance }
        ensures { IfOk result (λ r. (budget : ℕ) → StandsFor limits.now.limits.instance budget r
            (Bounds limits.now.limits.instance budget)) }
    {
        prices_are_read_in_turn();
        let possible = PossibleMinutes::of(alloc, limits)?;
        let room = RuleRoom::reserve(alloc, limits.instance())?;
        Ok(SheetReader {
            bound: 0,
            prices: MinutePrices::new(alloc),
            possible,
            worths: Vec::new(alloc),
            worth: 0,
            rows: TeamRows::new(alloc),
            room,
            due: SheetDue::Bound,
        })
    }

    /// How many tasks every legal plan leaves unassigned at least, as the line `bound` says; 0 before it.
    pub fn bound(&self) -> u32
        ensures { result ≡ self.now.bound }
    {
        self.bound
    }

    /// Judges the line that is due, by the table of a sheet's lines, with the limits of the root. A team's rules are tested at
    /// its last line: `Potential` tells the first task whose potentials are too low, and then `Worth` that the worth is;
    /// `Bound` is told at the last line of the last team, where the prices do not prove the bound. After a reason, and after
    /// want of memory, what is said of a line means nothing.
    pub fn line(
        &mut self,
        alloc: Global,
        limits: &Limits<'_>,
        words: LineWords<'_>,
    ) -> Result<SheetStep, Refusal>
        requires root { limits.now.limits ≡ root_limits limits.now.limits.instance }
        requires due { IsAwaited limits.now.limits.instance self.old }
        ensures { IsSheetStep limits.now.limits.instance words.entry self.old self.new result }
    {
        match self.due {
            SheetDue::Bound => self.bound_line(limits, words),
            SheetDue::Price { task } => self.price_line(alloc, limits, task, words),
            SheetDue::Worth { team } => self.worth_line(alloc, limits, team, words),
            SheetDue::Steps { team, task } => self.steps_line(alloc, limits, team, task, words),
            SheetDue::End => self.end_line(words),
        }
    }

    /// The line `bound`.
    fn bound_line(
        &mut self,
        limits: &Limits<'_>,
        words: LineWords<'_>,
    ) -> Result<SheetStep, Refusal>
        requires due { self.old.due ≡ SheetDue.Bound }
        requires awaited { IsAwaited limits.now.limits.instance self.old }
        ensures { IsSheetStep limits.now.limits.instance words.entry self.old self.new result }
    {
        let tasks = limits.instance().tasks() as u32;
        let bound = read_bound(words, tasks)?;
        self.bound = bound;
        self.after_price(limits, 0)
    }

    /// The line `end`.
    fn end_line(&self, words: LineWords<'_>) -> Result<SheetStep, Refusal>
        requires due { self.now.due ≡ SheetDue.End }
        ensures { (i : Instance) → IsSheetStep i words.entry self.now self.now result }
    {
        read_end(words)?;
        Ok(SheetStep::Whole)
    }
}
