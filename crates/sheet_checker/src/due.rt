// How far a sheet has been read: the line that is due, and what is kept of the lines before it.

use head_check::{Base, HeadDue};
use node_limits::Held;
use sheet_reader::SheetReader;

/// A sheet whose lines behind its instance are being read.
#[derive(Drop)]
pub struct SheetDraft {
    /// The instance and the node budget.
    pub base: Base,
    /// The limits of the root.
    pub root: Held,
    /// What reads the other lines.
    pub reader: SheetReader,
}

/// The line that is due, with what was read.
#[derive(Drop)]
pub enum Due {
    /// The first line.
    First,
    /// A line of the instance or of its frozen jobs.
    Head(HeadDue),
    /// A line behind them.
    Body { draft: Box<SheetDraft> },
}

/// What is said of a line that breaks no rule.
#[derive(Drop)]
pub enum Step {
    /// This is due next.
    More(Due),
    /// It ends a sheet with this bound.
    Whole { bound: u32 },
}
