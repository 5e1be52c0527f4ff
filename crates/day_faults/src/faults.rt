// What is wrong with records, as values.

use crate::stops::Stop;
use crew_terms::Name;
use day_lines::Span;
use day_terms::RecordKind;
use field_table::Cause;

/// What has a name.
#[derive(Clone, Copy, Debug, PartialEq, Eq)]
pub enum Thing {
    Place,
    Team,
    Task,
}

/// What became of a name that nothing has.
#[derive(Clone, Copy, Debug, PartialEq, Eq)]
pub enum Fate {
    /// No record gives it.
    Unknown,
    /// Its record is refused.
    Refused,
    /// Its record comes later.
    Later,
    /// A record ends it.
    Gone,
}

/// One thing that is wrong with a record.
#[derive(Clone, Copy)]
pub enum Fault {
    /// A field runs over the end of a line: its quote is closed on a later one, or never.
    Quote {
        closed: bool,
    },
    /// Its fields are separated by this byte.
    Separator(u8),
    /// It is a line of headings.
    Heading,
    /// Its first field is that of no kind.
    NoKind,
    /// Its first field is that of no kind; this one seems to be meant.
    NearKind(RecordKind),
    /// It has so many fields, fewer than its kind, which has this many.
    TooFew {
        count: usize,
        due: usize,
    },
    /// It has so many fields more than its kind; whether all of those are empty.
    TooMany {
        more: usize,
        all_empty: bool,
    },
    /// The field with this number does not hold what it has to.
    BadWord {
        place: usize,
        cause: Cause,
    },
    /// The field with this number names what is not there; what became of it, and on which line.
    NoSuch {
        place: usize,
        thing: Thing,
        fate: Fate,
        line: u64,
    },
    /// Its first name is that of a thing that is there since the record on this line.
    SameName {
        thing: Thing,
        line: u64,
    },
    /// As many as a day may have are there.
    Full(Thing),
    /// The window ends before it begins, or is too wide.
    BadWindow {
        earliest: u32,
        latest: u32,
    },
    /// The shift does not end after it begins.
    BadShift {
        from: u32,
        until: u32,
    },
    /// No task may need so many teams.
    BadTeams {
        teams: u32,
    },
    /// There is no travel time between the places of its cause, nor between so many more pairs of places.
    NoTime {
        more: u64,
    },
    /// The job of the task of its cause is frozen, and couldn't be done any more.
    Frozen,
}

/// A record that is refused, and all that is wrong with it.
#[derive(Drop)]
pub struct FaultyRecord {
    /// Its number and why it is refused.
    pub stop: Stop,
    /// Where it stands.
    pub span: Span,
    /// Its kind, where its first field is that of one.
    pub kind: Option<RecordKind>,
    /// What is wrong with it, and was not told of an earlier record; nothing where it is refused only for what was.
    pub faults: Vec<Fault>,
    /// A name that is there and differs by a letter from one that is not.
    pub near: Option<Name>,
    /// Two more places with no travel time from the one to the other.
    pub other: Option<(Name, Name)>,
}
