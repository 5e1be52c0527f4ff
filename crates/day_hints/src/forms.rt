// The kinds of records as they are written, and what their fields hold.
use crate::near::is_near;
use crew_terms::{LAST_MINUTE, MOST_NODES, SKILLS};
use day_terms::{GREATEST_COUNT, RecordKind};

/// What a field holds.
#[derive(Clone, Copy)]
pub enum Holds {
    /// A name.
    Name,
    /// A clock time.
    Clock,
    /// A number of this range.
    Number { low: u32, high: u32 },
    /// Numbers of skills.
    Skills,
}

/// The kinds of records, with no travel time first.
const KINDS: [RecordKind; 17] = [
    RecordKind::Place,
    RecordKind::Travel,
    RecordKind::RouteTime,
    RecordKind::DefaultTravel,
    RecordKind::Team,
    RecordKind::Task,
    RecordKind::Cancel,
    RecordKind::Move,
    RecordKind::Longer,
    RecordKind::Needs,
    RecordKind::Sick,
    RecordKind::Shift,
    RecordKind::Skill,
    RecordKind::Unskill,
    RecordKind::Plan,
    RecordKind::Now,
    RecordKind::Thaw,
];

/// How a record of the kind is written: its first field as it stands, and the others by what they are.
pub fn form_of(kind: RecordKind) -> &'static str {
    match kind {
        RecordKind::Place => "place,name",
        RecordKind::Travel => "travel,from,to,minutes",
        RecordKind::RouteTime => "route_time,from,to,minutes",
        RecordKind::DefaultTravel => "default_travel,minutes",
        RecordKind::Team => "team,name,home,from,until,skills",
        RecordKind::Task => "task,name,place,earliest,latest,duration,teams,skills",
        RecordKind::Cancel => "cancel,task",
        RecordKind::Move => "move,task,earliest,latest",
        RecordKind::Longer => "longer,task,duration",
        RecordKind::Needs => "needs,task,teams",
        RecordKind::Sick => "sick,team",
        RecordKind::Shift => "shift,team,from,until",
        RecordKind::Skill => "skill,team,skill",
        RecordKind::Unskill => "unskill,team,skill",
        RecordKind::Plan => "plan,nodes",
        RecordKind::Now => "now,time",
        RecordKind::Thaw => "thaw,task",
    }
}

/// What the field with this number is called in a record of the kind.
pub fn field_name(kind: RecordKind, place: usize) -> &'static str {
    form_of(kind).split(',').nth(place).unwrap_or("field")
}

/// The first field of records of the kind.
pub fn key_of(kind: RecordKind) -> &'static str {
    field_name(kind, 0)
}

/// The kind whose records have this first field.
pub fn kind_of(key: &[u8]) -> Option<RecordKind> {
    KINDS
        .iter()
        .copied()
        .find(|kind| key_of(*kind).as_bytes() == key)
}

/// The kind whose first field the word may be meant to be.
pub fn kind_meant(word: &[u8]) -> Option<RecordKind> {
    let word = word.trim_ascii();
    KINDS
        .iter()
        .copied()
        .find(|kind| is_near(key_of(*kind).as_bytes(), word))
}

/// What the field with this number holds in a record of the kind.
pub fn field_holds(kind: RecordKind, place: usize) -> Holds {
    match (kind, place) {
        (RecordKind::Team, 3 | 4) | (RecordKind::Task, 3 | 4) => Holds::Clock,
        (RecordKind::Move, 2 | 3) | (RecordKind::Shift, 2 | 3) => Holds::Clock,
        (RecordKind::Now, 1) => Holds::Clock,
        (RecordKind::Team, 5) | (RecordKind::Task, 7) => Holds::Skills,
        (RecordKind::Travel, 3) | (RecordKind::RouteTime, 3) => minutes(0),
        (RecordKind::DefaultTravel, 1) => minutes(0),
        (RecordKind::Task, 5) | (RecordKind::Longer, 2) => minutes(1),
        (RecordKind::Task, 6) | (RecordKind::Needs, 2) => numbers(GREATEST_COUNT),
        (RecordKind::Skill, 2) | (RecordKind::Unskill, 2) => numbers(SKILLS - 1),
        (RecordKind::Plan, 1) => numbers(MOST_NODES),
        _ => Holds::Name,
    }
}

/// A number of minutes, this one or more.
fn minutes(low: u32) -> Holds {
    Holds::Number {
        low,
        high: LAST_MINUTE,
    }
}

/// A number from 0 to this one.
fn numbers(high: u32) -> Holds {
    Holds::Number { low: 0, high }
}
