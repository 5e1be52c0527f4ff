// The words of a measurement: what is done, over which generated day, and how often.
ghost use Rattle.std.specs.Prelude.{◌≤◌, IfSome};
ghost use Rattle.crew_terms.specs.declared.TheConstants.{MOST_TASKS, MOST_TEAMS};

use crew_terms::{MOST_TASKS, MOST_TEAMS};
use std::string::String;

/// A piece of the planner's work.
#[derive(Clone, Copy, Debug, PartialEq, Eq)]
pub enum Kind {
    /// A greedy plan, bettered.
    Plan,
    /// A bettered plan, ruined and recreated.
    Ruin,
    /// The worths of all teams.
    Pricing,
    /// The same over the widest day in place of a generated one.
    Widest,
    /// Prices that rise from zero.
    Ascent,
    /// The run of the master over routes of an ascent.
    Master,
    /// A search by branch and price.
    Solve,
    /// The step at the root.
    Root,
    /// The two searches for a plan at the root.
    Again,
    /// Columns that are added.
    Columns,
    /// The columns of each team and task.
    Using,
    /// The columns that are routes.
    Legal,
}

/// What is done, over the generated day with this number and so many teams and tasks, and how often or how long; of a plan that
/// is ruined and recreated the seed, and how few unassigned tasks are enough.
#[derive(Clone, Copy, Debug)]
pub struct Work {
    pub kind: Kind,
    pub day: u64,
    pub teams: u32,
    pub tasks: u32,
    pub count: u32,
    pub seed: u64,
    pub enough: u32,
    ghost few_teams: { teams ≤ MOST_TEAMS },
    ghost few_tasks: { tasks ≤ MOST_TASKS },
}

/// The kind of work with this name.
fn kind_of(word: &str) -> Option<Kind> {
    match word {
        "plan" => Some(Kind::Plan),
        "ruin" => Some(Kind::Ruin),
        "pricing" => Some(Kind::Pricing),
        "widest" => Some(Kind::Widest),
        "ascent" => Some(Kind::Ascent),
        "master" => Some(Kind::Master),
        "solve" => Some(Kind::Solve),
        "root" => Some(Kind::Root),
        "again" => Some(Kind::Again),
        "columns" => Some(Kind::Columns),
        "using" => Some(Kind::Using),
        "legal" => Some(Kind::Legal),
        _ => None,
    }
}

/// The number that is the word at a place, or 0 where there is none.
fn number_at(words: &[String], at: usize) -> Option<u64> {
    match words.get(at) {
        Some(word) => word.as_str().parse::<u64>().ok(),
        None => Some(0),
    }
}

impl Work {
    /// The work that the words ask for: its kind, the day's number, teams, tasks, how often or how long, and a seed and how few
    /// unassigned tasks are enough, both 0 where they are left out.
    pub fn of(words: &[String]) -> Option<Work> {
        let [kind, day, teams, tasks, count, rest @ ..] = words else {
            return None;
        };
        if rest.len() > 2 {
            return None;
        }
        let kind = kind_of(kind.as_str())?;
        let day = day.as_str().parse::<u64>().ok()?;
        let teams = teams.as_str().parse::<u32>().ok()?;
        let tasks = tasks.as_str().parse::<u32>().ok()?;
        let count = count.as_str().parse::<u32>().ok()?;
        if teams as usize > MOST_TEAMS || tasks as usize > MOST_TASKS {
            return None;
        }
        Some(Work {
            kind,
            day,
            teams,
            tasks,
            count,
            seed: number_at(rest, 0)?,
            enough: u32::try_from(number_at(rest, 1)?).ok()?,
        })
    }
}
