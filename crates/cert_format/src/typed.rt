// What a line of one kind says.
ghost use Rattle.std.specs.Prelude.{◌≡◌};
ghost use Rattle.cert_format.specs.Typed.{job_kind, keep_kind};

use crate::kinds::LineKind;
use crew_num::Overflow;
use crew_terms::Name;
use line_in::LineNumbers;

/// A line `team`: its name, its home, its shift in minutes of the day, and its skills in the order of the line.
#[derive(Drop)]
pub struct TeamLine<'a> {
    pub name: Name,
    pub home: u32,
    pub from: u32,
    pub until: u32,
    pub skills: LineNumbers<'a>,
}

/// A line `task`: its name, its place, its first and last start in minutes of the day, how many minutes it takes, how many
/// teams, and its skills in the order of the line.
#[derive(Drop)]
pub struct TaskLine<'a> {
    pub name: Name,
    pub place: u32,
    pub earliest: u32,
    pub latest: u32,
    pub minutes: u32,
    pub teams: u32,
    pub skills: LineNumbers<'a>,
}

/// A line `do` or `keep`: the teams begin the task at the minute `start`.
#[derive(Drop)]
pub struct JobLine<'a> {
    pub task: u32,
    pub start: u32,
    pub teams: LineNumbers<'a>,
}

impl<'a> JobLine<'a> {
    /// It as a line `keep`.
    pub(crate) fn kept(self) -> LineKind<'a>
        ensures { result ≡ keep_kind self.entry }
    {
        let JobLine { task, start, teams } = self;
        LineKind::Keep { task, start, teams }
    }

    /// It as a line `do`.
    pub(crate) fn planned(self) -> LineKind<'a>
        ensures { result ≡ job_kind self.entry }
    {
        let JobLine { task, start, teams } = self;
        LineKind::Job { task, start, teams }
    }
}

/// The line `pool`: how many routes come from the round before, and how many there are.
#[derive(Clone, Copy, Debug, PartialEq, Eq)]
pub struct PoolLine {
    pub kept: i64,
    pub routes: i64,
}

/// A line `route`: the visits of a team, of each its task and the minute at which it begins.
#[derive(Drop)]
pub struct RouteLine<'a> {
    pub team: u32,
    pub visits: LineNumbers<'a>,
}

/// The line `plan`: how many tasks the plan leaves unassigned, and the bound.
#[derive(Clone, Copy, Debug, PartialEq, Eq)]
pub struct PlanLine {
    pub unassigned: u32,
    pub bound: u32,
}

/// A line of a node of a tree.
#[derive(Clone, Copy, Debug, PartialEq, Eq)]
pub enum NodeLine {
    /// A split of a task's window after the minute `cut`.
    Window { task: u32, cut: u32 },
    /// A split by whether the team does the task.
    Pair { team: u32, task: u32 },
    Bare,
    Open,
    Closed,
}

/// A line `why` behind a split.
#[derive(Clone, Copy, Debug, PartialEq, Eq)]
pub enum WhyLine {
    /// No cause of the split is shown.
    None,
    /// How many tasks the plan left unassigned, of how many parts is one share, and how many columns have one.
    Loose { now: u32, whole: u128, count: u64 },
    /// How many tasks the plan left unassigned, and an operation whose result may leave i128.
    Overflow { now: u32, fault: Overflow },
    /// How many tasks the plan left unassigned.
    Spent { now: u32 },
}

/// A line `share`: a column, and how many parts of it are taken.
#[derive(Clone, Copy, Debug, PartialEq, Eq)]
pub struct ShareLine {
    pub column: u64,
    pub parts: u128,
}

impl<'a> From<TeamLine<'a>> for LineKind<'a> {
    ghost use Rattle.std.specs.Prelude.{◌≡◌};
    ghost use Rattle.cert_format.specs.Typed.{team_kind};

    ghost from_gives = { λ line kind. kind ≡ team_kind line };

    fn from(line: TeamLine<'a>) -> Self {
        let TeamLine {
            name,
            home,
            from,
            until,
            skills,
        } = line;
        LineKind::Team {
            name,
            home,
            from,
            until,
            skills,
        }
    }
}

impl<'a> From<TaskLine<'a>> for LineKind<'a> {
    ghost use Rattle.std.specs.Prelude.{◌≡◌};
    ghost use Rattle.cert_format.specs.Typed.{task_kind};

    ghost from_gives = { λ line kind. kind ≡ task_kind line };

    fn from(line: TaskLine<'a>) -> Self {
        let TaskLine {
            name,
            place,
            earliest,
            latest,
            minutes,
            teams,
            skills,
        } = line;
        LineKind::Task {
            name,
            place,
            earliest,
            latest,
            minutes,
            teams,
            skills,
        }
    }
}

impl<'a> From<RouteLine<'a>> for LineKind<'a> {
    ghost use Rattle.std.specs.Prelude.{◌≡◌};
    ghost use Rattle.cert_format.specs.Typed.{route_kind};

    ghost from_gives = { λ line kind. kind ≡ route_kind line };

    fn from(line: RouteLine<'a>) -> Self {
        let RouteLine { team, visits } = line;
        LineKind::Route { team, visits }
    }
}

impl<'a> From<PoolLine> for LineKind<'a> {
    ghost use Rattle.std.specs.Prelude.{◌≡◌};
    ghost use Rattle.cert_format.specs.Typed.{pool_kind};

    ghost from_gives = { λ line kind. kind ≡ pool_kind line };

    fn from(line: PoolLine) -> Self {
        LineKind::Pool {
            kept: line.kept,
            routes: line.routes,
        }
    }
}

impl<'a> From<PlanLine> for LineKind<'a> {
    ghost use Rattle.std.specs.Prelude.{◌≡◌};
    ghost use Rattle.cert_format.specs.Typed.{plan_kind};

    ghost from_gives = { λ line kind. kind ≡ plan_kind line };

    fn from(line: PlanLine) -> Self {
        LineKind::Plan {
            unassigned: line.unassigned,
            bound: line.bound,
        }
    }
}

impl<'a> From<NodeLine> for LineKind<'a> {
    ghost use Rattle.std.specs.Prelude.{◌≡◌};
    ghost use Rattle.cert_format.specs.Typed.{node_kind};

    ghost from_gives = { λ line kind. kind ≡ node_kind line };

    fn from(line: NodeLine) -> Self {
        match line {
            NodeLine::Window { task, cut } => LineKind::Window { task, cut },
            NodeLine::Pair { team, task } => LineKind::Pair { team, task },
            NodeLine::Bare => LineKind::LeafBare,
            NodeLine::Open => LineKind::LeafOpen,
            NodeLine::Closed => LineKind::LeafClosed,
        }
    }
}

impl<'a> From<WhyLine> for LineKind<'a> {
    ghost use Rattle.std.specs.Prelude.{◌≡◌};
    ghost use Rattle.cert_format.specs.Typed.{why_kind};

    ghost from_gives = { λ line kind. kind ≡ why_kind line };

    fn from(line: WhyLine) -> Self {
        match line {
            WhyLine::None => LineKind::WhyNone,
            WhyLine::Loose { now, whole, count } => LineKind::WhyLoose { now, whole, count },
            WhyLine::Overflow { now, fault } => LineKind::WhyOverflow { now, fault },
            WhyLine::Spent { now } => LineKind::WhySpent { now },
        }
    }
}

impl<'a> From<ShareLine> for LineKind<'a> {
    ghost use Rattle.std.specs.Prelude.{◌≡◌};
    ghost use Rattle.cert_format.specs.Typed.{share_kind};

    ghost from_gives = { λ line kind. kind ≡ share_kind line };

    fn from(line: ShareLine) -> Self {
        LineKind::Share {
            column: line.column,
            parts: line.parts,
        }
    }
}
