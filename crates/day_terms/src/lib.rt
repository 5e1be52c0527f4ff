// What a day's records are: the entries that they stand for, and why a record is refused; and the laws of
// a day.
#![tactic(auto)]

mod laws;

use crew_terms::Name;
use field_table::FieldFault;
pub use laws::{
    cancelled_task_goes, entries_are_said_by_place, first_bad_is_first, first_condition_counts,
    free_days_forbid_nothing, good_fields_make_an_entry, minutes_are_by_name, missing_is_first,
    names_are_known, numbers_are_spelled_by_place, one_skill_changes, places_are_numbered,
    plans_to_come_decide_nothing, refused_numbers_break_rules, rounds_are_of_plans, rounds_go_on,
    sick_team_goes, state_goes_on, task_changes_by_name, team_changes_by_name, time_is_given,
    travel_is_both_ways,
};

/// The greatest number of teams that a record may say for a task.
pub const GREATEST_COUNT: u32 = 99;

/// A kind of record of a day.
#[derive(Clone, Copy, Debug, PartialEq, Eq)]
pub enum RecordKind {
    Place,
    Travel,
    RouteTime,
    DefaultTravel,
    Team,
    Task,
    Cancel,
    Move,
    Longer,
    Needs,
    Sick,
    Shift,
    Skill,
    Unskill,
    Plan,
    Now,
    Thaw,
}

/// What one record of a day says. Times are minutes of the day, as are travel times; durations are 1 minute or more, and
/// all of them at most `LAST_MINUTE`; skills are a bit for each of the numbers below `SKILLS`.
#[derive(Clone, Copy, Debug, PartialEq, Eq)]
pub enum Entry {
    /// There is one more place.
    Place {
        name: Name,
    },
    /// The travel time between two places, both ways.
    Travel {
        from: Name,
        to: Name,
        minutes: u32,
    },
    /// The travel time from one place to another, one way.
    RouteTime {
        from: Name,
        to: Name,
        minutes: u32,
    },
    /// The travel time between different places that have none of their own.
    DefaultTravel {
        minutes: u32,
    },
    /// There is one more team.
    Team {
        name: Name,
        home: Name,
        from: u32,
        until: u32,
        skills: u64,
    },
    /// There is one more task; `earliest` and `latest` are its window of start minutes.
    Task {
        name: Name,
        place: Name,
        earliest: u32,
        latest: u32,
        minutes: u32,
        teams: u32,
        skills: u64,
    },
    /// The task is no more.
    Cancel {
        task: Name,
    },
    /// The task has another window.
    Move {
        task: Name,
        earliest: u32,
        latest: u32,
    },
    /// The task has another duration.
    Longer {
        task: Name,
        minutes: u32,
    },
    /// The task needs another number of teams.
    Needs {
        task: Name,
        teams: u32,
    },
    /// The team is no more.
    Sick {
        team: Name,
    },
    /// The team has another shift.
    Shift {
        team: Name,
        from: u32,
        until: u32,
    },
    /// The team has the skill from now on.
    Skill {
        team: Name,
        skill: u32,
    },
    /// The team lacks the skill from now on.
    Unskill {
        team: Name,
        skill: u32,
    },
    /// A plan is due, with at most so many nodes of the search.
    Plan {
        nodes: u32,
    },
    /// The jobs of the last plan that begin before this time are frozen: each plan from now on has them.
    Now {
        time: u32,
    },
    /// The task's frozen job is frozen no more.
    Thaw {
        task: Name,
    },
}

/// Why a record is refused in itself: the first cause that it has.
#[derive(Clone, Copy, Debug, PartialEq, Eq)]
pub enum DayCause {
    /// Its first field is not the name of a kind of record.
    Kind,
    /// It has another number of fields than its kind, told with that number as the place; or this is
    /// its first bad field: one that is misspelled, or whose value is out of range.
    Field(FieldFault),
}

/// The first record of a day that is refused in itself: its number, from 1, and why.
#[derive(Clone, Copy, Debug, PartialEq, Eq)]
pub struct Refused {
    pub number: u64,
    pub cause: DayCause,
}
