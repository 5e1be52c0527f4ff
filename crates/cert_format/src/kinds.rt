// The kinds of lines of a dossier.

use crew_num::Overflow;
use crew_terms::{Name, TreeCounts};
use dossier_terms::{DossierForm, Size};
use line_in::{LineNumbers, WideNumbers};

/// The kind of line that is due, with the counts that its ranges need.
#[derive(Clone, Copy, Debug, PartialEq, Eq)]
pub enum Expect {
    Form,
    Size,
    Place,
    Travel { places: u32 },
    Team { places: u32 },
    Task { places: u32 },
    /// The line `frozen`: how many jobs may be frozen at most.
    Frozen { most: u32 },
    /// A line `keep`.
    Keep { teams: u32, tasks: u32 },
    Pool,
    Route { teams: u32, tasks: u32 },
    Plan { tasks: u32 },
    Job { teams: u32, tasks: u32 },
    Tree,
    /// A line `window`, `pair` or `leaf`.
    Node { teams: u32, tasks: u32 },
    /// The line `why` after a split.
    Why { tasks: u32 },
    /// A line `share`: how many columns there are, and of how many parts is one share.
    Share { columns: u64, whole: i128 },
    /// The line `spare`: of how many parts is one share.
    Spare { tasks: u32, whole: i128 },
    Price { tasks: u32 },
    /// The task that is due, and how many of its pairs are required.
    Extra { task: u32, count: u32 },
    Worth,
    /// The task that is due, and at how many minutes the team may begin it.
    Phi { task: u32, count: u32 },
    /// The task that is due.
    Steps { task: u32 },
    End,
}

/// What a line says. Minutes are minutes of the day; prices, worths and potentials are in 1/D of a task;
/// numbers at the end of a line are in its order.
#[derive(Drop)]
pub enum LineKind<'a> {
    Form {
        form: DossierForm,
    },
    Size {
        size: Size,
    },
    Place {
        name: Name,
    },
    Travel {
        times: LineNumbers<'a>,
    },
    Team {
        name: Name,
        home: u32,
        from: u32,
        until: u32,
        skills: LineNumbers<'a>,
    },
    Task {
        name: Name,
        place: u32,
        earliest: u32,
        latest: u32,
        minutes: u32,
        teams: u32,
        skills: LineNumbers<'a>,
    },
    /// How many jobs are frozen.
    Frozen {
        count: u32,
    },
    /// A line `keep`: a frozen job, which the teams begin at the minute `start`.
    Keep {
        task: u32,
        start: u32,
        teams: LineNumbers<'a>,
    },
    /// How many routes come from the round before, and how many routes there are.
    Pool {
        kept: i64,
        routes: i64,
    },
    /// The visits of a team: of each its task, and the minute at which it begins.
    Route {
        team: u32,
        visits: LineNumbers<'a>,
    },
    Plan {
        unassigned: u32,
        bound: u32,
    },
    /// A line `do`: the teams begin the task at the minute `start`.
    Job {
        task: u32,
        start: u32,
        teams: LineNumbers<'a>,
    },
    Tree {
        counts: TreeCounts,
    },
    /// A split of a task's window after the minute `cut`.
    Window {
        task: u32,
        cut: u32,
    },
    /// A split by whether the team does the task.
    Pair {
        team: u32,
        task: u32,
    },
    /// A line `why none`: no cause of the split is shown.
    WhyNone,
    /// A line `why loose`: how many tasks the plan left unassigned, of how many parts is one share, and how many columns
    /// have one.
    WhyLoose {
        now: u32,
        whole: u128,
        count: u64,
    },
    /// A line `why overflow`: how many tasks the plan left unassigned, and an operation whose result may leave i128.
    WhyOverflow {
        now: u32,
        fault: Overflow,
    },
    /// A line `why spent`: how many tasks the plan left unassigned.
    WhySpent {
        now: u32,
    },
    /// A line `share`: a column, and how many parts of it are taken.
    Share {
        column: u64,
        parts: u128,
    },
    /// The line `spare`: how many parts of each task are left unassigned.
    Spare {
        shares: WideNumbers<'a>,
    },
    LeafBare,
    LeafOpen,
    LeafClosed,
    /// A price of each task.
    Price {
        prices: LineNumbers<'a>,
    },
    /// A price of each required pair of a task, by team.
    Extra {
        task: u32,
        prices: LineNumbers<'a>,
    },
    /// A team's worth.
    Worth {
        worth: i64,
    },
    /// A potential of a team's task for each minute at which the team may begin it.
    Phi {
        task: u32,
        values: LineNumbers<'a>,
    },
    /// The potentials of a team's task by runs: of each its first minute, and its number.
    Steps {
        task: u32,
        pairs: LineNumbers<'a>,
    },
    End,
}
