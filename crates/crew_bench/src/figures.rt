// What a piece of work came to.
use std::fmt;

/// How a run of the master ended.
#[derive(Clone, Copy, Debug, PartialEq, Eq)]
pub enum Ending {
    Optimum,
    Spent,
    Overflow,
}

/// How the step at a root ended: it was closed, or split for one of these causes.
#[derive(Clone, Copy, Debug, PartialEq, Eq)]
pub enum RootEnd {
    Closed,
    Loose,
    Overflow,
    Spent,
}

/// What a piece of work came to.
#[derive(Clone, Copy, Debug)]
pub enum Figures {
    /// The unassigned tasks of a plan, after so many iterations at most.
    Plan {
        unassigned: u32,
        iterations: u32,
    },
    /// What a plan leaves unassigned, and what it leaves after it was ruined and recreated.
    Ruin {
        first: u32,
        second: u32,
    },
    /// The unassigned tasks aimed at, a bound in 1/D of a task, what it proves unassigned, and the rounds that were made.
    Prices {
        goal: u32,
        bound: i128,
        proved: u32,
        rounds: u32,
    },
    /// The columns, and the pivots of a run over them, 0 where it overflowed.
    Run {
        columns: usize,
        pivots: u32,
        ending: Ending,
    },
    /// What a search's plan leaves unassigned and what its tree proves unassigned, its splits and closed leaves, and how many of
    /// the splits have each cause.
    Search {
        unassigned: u32,
        bound: u32,
        splits: u32,
        closed: usize,
        causes: Causes,
    },
    /// The rounds of the two ascents at a root, the pivots of its master's run, and how its step ends.
    Root {
        first: u32,
        again: u32,
        pivots: u32,
        end: RootEnd,
    },
    /// What the first and the second search for a plan at a root leave unassigned, and what the prices between prove.
    Again {
        first: u32,
        second: u32,
        proved: u32,
    },
    /// How many columns were added, and how many are held.
    Columns {
        added: u32,
        held: usize,
    },
    /// How often all teams and tasks were asked for their columns, and how many numbers were given.
    Using {
        times: u32,
        numbers: u64,
    },
    /// How often columns were asked which of them are routes, how many there are, the forbidden pairs, and how many are routes.
    Legal {
        times: u32,
        columns: usize,
        forbidden: u32,
        legal: usize,
    },
}

/// How many splits of a search have each cause.
#[derive(Clone, Copy, Debug, Default)]
pub struct Causes {
    pub loose: usize,
    pub overflow: usize,
    pub spent: usize,
}

impl fmt::Display for Figures {
    fn fmt<W: fmt::Write>(&self, f: &mut fmt::Formatter<W>) -> fmt::Result {
        match self {
            Figures::Plan {
                unassigned,
                iterations,
            } => write!(f, "unassigned {unassigned} iterations {iterations}"),
            Figures::Ruin { first, second } => write!(f, "first {first} second {second}"),
            Figures::Prices {
                goal,
                bound,
                proved,
                rounds,
            } => write!(
                f,
                "goal {goal} bound {bound} proved {proved} rounds {rounds}"
            ),
            Figures::Run {
                columns,
                pivots,
                ending,
            } => write!(f, "columns {columns} pivots {pivots} {ending:?}"),
            Figures::Search {
                unassigned,
                bound,
                splits,
                closed,
                causes,
            } => write!(
                f,
                "unassigned {unassigned} bound {bound} splits {splits} closed {closed} loose {} overflow {} spent {}",
                causes.loose, causes.overflow, causes.spent
            ),
            Figures::Root {
                first,
                again,
                pivots,
                end,
            } => write!(f, "rounds {first} again {again} pivots {pivots} {end:?}"),
            Figures::Again {
                first,
                second,
                proved,
            } => write!(f, "first {first} second {second} proved {proved}"),
            Figures::Columns { added, held } => write!(f, "columns {added} held {held}"),
            Figures::Using { times, numbers } => write!(f, "times {times} numbers {numbers}"),
            Figures::Legal {
                times,
                columns,
                forbidden,
                legal,
            } => write!(
                f,
                "times {times} columns {columns} forbidden {forbidden} legal {legal}"
            ),
        }
    }
}
