// What is wrong with a record, and what to write in its place, as text.
use crew_terms::{
    LAST_MINUTE, MOST_PLACES, MOST_TASKS, MOST_TEAMS, MOST_TEAMS_PER_TASK, Name, WIDEST_WINDOW,
};
use csv::ByteRecord;
use day_faults::{Fate, Fault, FaultyRecord, RecordKind, StopCause, Thing, field_at};
use day_hints::{Clock, Shown, field_holds, field_name, form_of, is_near, key_of, word_fault};
use flight_changes::ChangeFault;
use std::fmt::{self, Display, Formatter, Write};

/// So many minutes are between a time and the same one on the next day.
const DAY: u32 = 1440;

/// A fault of a record: what is wrong, and what to write.
#[derive(Drop)]
pub(crate) struct Hint<'a> {
    pub(crate) faulty: &'a FaultyRecord,
    /// The fields of the record.
    pub(crate) row: &'a ByteRecord,
    pub(crate) fault: Fault,
}

/// A record by its first field and the name that it gives or speaks of.
#[derive(Drop)]
struct Subject<'a> {
    kind: RecordKind,
    row: &'a ByteRecord,
}

impl Display for Subject<'_> {
    fn fmt<W: Write>(&self, f: &mut Formatter<W>) -> fmt::Result {
        write!(f, "{} {}", key_of(self.kind), Shown(field_at(self.row, 1)))
    }
}

/// A field of a record by its name, with the word that stands there.
#[derive(Drop)]
struct Field<'a> {
    kind: RecordKind,
    row: &'a ByteRecord,
    place: usize,
}

impl Display for Field<'_> {
    fn fmt<W: Write>(&self, f: &mut Formatter<W>) -> fmt::Result {
        let Field { kind, row, place } = *self;
        if place > 1 {
            write!(f, "{}", Subject { kind, row })?;
        } else {
            f.write_str(key_of(kind))?;
        }
        let word = Shown(field_at(row, place));
        write!(f, ", {} \"{word}\"", field_name(kind, place))
    }
}

/// So many of some things.
#[derive(Drop)]
struct Count {
    number: u64,
    one: &'static str,
    many: &'static str,
}

impl Display for Count {
    fn fmt<W: Write>(&self, f: &mut Formatter<W>) -> fmt::Result {
        let word = if self.number == 1 {
            self.one
        } else {
            self.many
        };
        write!(f, "{} {word}", self.number)
    }
}

/// So many fields.
fn fields(number: usize) -> Count {
    Count {
        number: number as u64,
        one: "field",
        many: "fields",
    }
}

/// What a thing is called.
fn thing_word(thing: Thing) -> &'static str {
    match thing {
        Thing::Place => "place",
        Thing::Team => "team",
        Thing::Task => "task",
    }
}

/// As many of these things as a day may have.
fn most(thing: Thing) -> Count {
    let (number, many) = match thing {
        Thing::Place => (MOST_PLACES, "places"),
        Thing::Team => (MOST_TEAMS, "teams"),
        Thing::Task => (MOST_TASKS, "tasks"),
    };
    Count {
        number: number as u64,
        one: thing_word(thing),
        many,
    }
}

/// What the bytes that separate fields elsewhere are called.
fn separator_word(separator: u8) -> &'static str {
    match separator {
        b';' => "semicolons",
        b'\t' => "tabs",
        _ => "bars",
    }
}

/// The same time on the next day, where a day's times reach it.
fn next_day(minute: u32) -> Option<u32> {
    if minute < LAST_MINUTE - DAY {
        Some(minute + DAY)
    } else {
        None
    }
}

/// Two times, the second of which is not behind the first, and how it is written if it is one of the next day.
#[derive(Drop)]
struct Backwards {
    from: u32,
    until: u32,
}

impl Display for Backwards {
    fn fmt<W: Write>(&self, f: &mut Formatter<W>) -> fmt::Result {
        write!(
            f,
            "{} to {} ends before it begins",
            Clock(self.from),
            Clock(self.until)
        )?;
        match next_day(self.until) {
            Some(minute) => write!(
                f,
                "; an hour of the next day is written as {}",
                Clock(minute)
            ),
            None => Ok(()),
        }
    }
}

/// What became of a name of a thing that is not there, since this line.
#[derive(Drop)]
struct Missing {
    thing: Thing,
    fate: Fate,
    line: u64,
}

impl Display for Missing {
    fn fmt<W: Write>(&self, f: &mut Formatter<W>) -> fmt::Result {
        write!(f, "no such {}", thing_word(self.thing))?;
        let line = self.line;
        match self.fate {
            Fate::Unknown => Ok(()),
            Fate::Refused => write!(f, "; its record in line {line} is refused"),
            Fate::Later => write!(f, "; its record comes later, in line {line}"),
            Fate::Gone => write!(f, "; it is gone since line {line}"),
        }
    }
}

impl<'a> Hint<'a> {
    /// The field of the record with this number.
    fn field(&self, kind: RecordKind, place: usize) -> Field<'a> {
        Field {
            kind,
            row: self.row,
            place,
        }
    }

    /// What is wrong with a first field.
    fn tell_kind<W: Write>(&self, f: &mut Formatter<W>) -> fmt::Result {
        let first = Shown(field_at(self.row, 0));
        write!(f, "\"{first}\" is no record; ")?;
        match self.fault {
            Fault::Heading => f.write_str("a heading line has to go"),
            Fault::NearKind(kind) => write!(f, "write {}", key_of(kind)),
            _ => f.write_str("it begins with no word for one, as place, team or task"),
        }
    }

    /// What is wrong with the form of a record of this kind.
    fn tell_form<W: Write>(&self, f: &mut Formatter<W>, kind: RecordKind) -> fmt::Result {
        match self.fault {
            Fault::TooFew { count, due } => {
                let lacking = fields(due.saturating_sub(count));
                write!(f, "{lacking} too few; write {}", form_of(kind))
            }
            Fault::TooMany {
                more,
                all_empty: true,
            } => write!(f, "{} too many, all empty", fields(more)),
            Fault::TooMany { more, .. } => {
                write!(f, "{} too many; write {}", fields(more), form_of(kind))
            }
            Fault::BadWord { place, cause } => {
                let word = field_at(self.row, place);
                let fault = word_fault(field_holds(kind, place), cause, word);
                write!(f, "{}: {fault}", self.field(kind, place))
            }
            _ => Ok(()),
        }
    }

    /// What is wrong with the name in the field of the record with this number.
    fn tell_missing<W: Write>(
        &self,
        f: &mut Formatter<W>,
        kind: RecordKind,
        place: usize,
        missing: Missing,
    ) -> fmt::Result {
        write!(f, "{}: {missing}", self.field(kind, place))?;
        match self.faulty.near {
            Some(name) if is_near(name.bytes(), field_at(self.row, place)) => {
                write!(f, "; there is {}", Shown(name.bytes()))
            }
            _ => Ok(()),
        }
    }

    /// What is wrong with the names of a record of this kind.
    fn tell_names<W: Write>(&self, f: &mut Formatter<W>, kind: RecordKind) -> fmt::Result {
        let row = self.row;
        match self.fault {
            Fault::NoSuch {
                place,
                thing,
                fate,
                line,
            } => {
                let missing = Missing { thing, fate, line };
                self.tell_missing(f, kind, place, missing)
            }
            Fault::SameName { thing, line } => {
                let subject = Subject { kind, row };
                let thing = thing_word(thing);
                write!(f, "{subject}: a {thing} of line {line} has this name")
            }
            Fault::Full(thing) => {
                let subject = Subject { kind, row };
                write!(f, "{subject}: a day has {} at most", most(thing))
            }
            Fault::Frozen => {
                let subject = Subject { kind, row };
                write!(f, "{subject}: its work has begun; write thaw first")
            }
            _ => Ok(()),
        }
    }

    /// What is wrong with the numbers of a record of this kind.
    fn tell_numbers<W: Write>(&self, f: &mut Formatter<W>, kind: RecordKind) -> fmt::Result {
        match self.fault {
            Fault::BadWindow { earliest, latest } if earliest > latest => {
                let (from, until) = (earliest, latest);
                write!(f, "window {}", Backwards { from, until })
            }
            Fault::BadWindow { earliest, latest } => write!(
                f,
                "window {} to {} is wider than {} minutes",
                Clock(earliest),
                Clock(latest),
                WIDEST_WINDOW
            ),
            Fault::BadShift { from, until } => write!(f, "shift {}", Backwards { from, until }),
            Fault::BadTeams { .. } => {
                let place = if kind == RecordKind::Needs { 2 } else { 6 };
                let field = self.field(kind, place);
                write!(f, "{field}: out of range; write 1 to {MOST_TEAMS_PER_TASK}")
            }
            _ => Ok(()),
        }
    }

    /// The two places between which a travel time is missing, if one is.
    fn way(&self) -> Option<(Name, Name)> {
        match self.faulty.stop.cause {
            StopCause::Change(ChangeFault::MissingTravel { from, to }) => Some((from, to)),
            _ => None,
        }
    }

    /// Which travel time is missing, and how many others.
    fn tell_time<W: Write>(&self, f: &mut Formatter<W>, more: u64) -> fmt::Result {
        f.write_str("no travel time")?;
        if let Some((from, to)) = self.way() {
            write!(f, " from {} to {}", Shown(from.bytes()), Shown(to.bytes()))?;
        }
        let Some((from, to)) = self.faulty.other else {
            return Ok(());
        };
        let (from, to) = (Shown(from.bytes()), Shown(to.bytes()));
        let dots = if more > 1 { ", .." } else { "" };
        write!(f, " ({more} more: {from} to {to}{dots})")
    }

    /// Where a quote is closed.
    fn tell_quote<W: Write>(&self, f: &mut Formatter<W>, closed: bool) -> fmt::Result {
        if closed {
            let line = self.faulty.span.last_line;
            write!(f, "a quote is opened here and closed in line {line}")
        } else {
            f.write_str("a quote is opened here and never closed")
        }
    }

    /// What is wrong with a record of this kind.
    fn tell_of<W: Write>(&self, f: &mut Formatter<W>, kind: RecordKind) -> fmt::Result {
        match self.fault {
            Fault::TooFew { .. } | Fault::TooMany { .. } | Fault::BadWord { .. } => {
                self.tell_form(f, kind)
            }
            Fault::BadWindow { .. } | Fault::BadShift { .. } | Fault::BadTeams { .. } => {
                self.tell_numbers(f, kind)
            }
            _ => self.tell_names(f, kind),
        }
    }
}

impl Display for Hint<'_> {
    fn fmt<W: Write>(&self, f: &mut Formatter<W>) -> fmt::Result {
        match (self.fault, self.faulty.kind) {
            (Fault::Quote { closed }, _) => self.tell_quote(f, closed),
            (Fault::Separator(byte), _) => {
                let separators = separator_word(byte);
                write!(f, "the fields are separated by {separators}; write commas")
            }
            (Fault::NoTime { more }, _) => self.tell_time(f, more),
            (Fault::Heading | Fault::NoKind | Fault::NearKind(_), _) => self.tell_kind(f),
            (_, Some(kind)) => self.tell_of(f, kind),
            (_, None) => f.write_str("it is refused"),
        }
    }
}
