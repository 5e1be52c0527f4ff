// The line of a day's refusal.
ghost use Rattle.std.specs.Prelude.{◌≢◌};
ghost use Rattle.crew_io.specs.Puts.{Puts};
ghost use Rattle.day_commands.specs.Refused.{refused_line};

use crew_io::sink::{Sink, WriteFault};
use day_records::DayCause;
use field_table::{Cause, FieldFault};
use flight_changes::ChangeFault;
use line_out::{Part, put_line, put_word};

/// Why a day is refused.
#[derive(Clone, Copy, Debug, PartialEq, Eq)]
pub enum DayFault {
    /// Its text is longer than a day's may be.
    TooLong,
    /// A record is refused in itself.
    InItself(DayCause),
    /// A record is refused by the state that those before it come to.
    Change(ChangeFault),
}

/// Writes the line of a record with another number of fields than its kind has, or with a bad field.
fn put_field<K: Sink>(out: &mut K, number: u64, fault: FieldFault) -> Result<(), WriteFault>
    ensures { Puts K.Sink (refused_line number (DayFault.InItself (DayCause.Field fault)))
        out.old out.new result }
{
    let refused = Part::Word(b"refused");
    let at = Part::Number(number);
    let place = Part::Number(fault.place as u64);
    match fault.cause {
        Cause::Count => put_word(out, b"refused", number, b"Count"),
        Cause::Spelling => put_line(out, &[refused, at, Part::Word(b"Spelling"), place]),
        Cause::Range => put_line(out, &[refused, at, Part::Word(b"Range"), place]),
    }
}

/// Writes the line of a record that the state refuses.
fn put_change<K: Sink>(out: &mut K, number: u64, fault: ChangeFault) -> Result<(), WriteFault>
    ensures { Puts K.Sink (refused_line number (DayFault.Change fault)) out.old out.new result }
{
    match fault {
        ChangeFault::OutOfMemory => put_word(out, b"refused", number, b"OutOfMemory"),
        ChangeFault::NoTask => put_word(out, b"refused", number, b"NoTask"),
        ChangeFault::NoTeam => put_word(out, b"refused", number, b"NoTeam"),
        ChangeFault::NoPlace => put_word(out, b"refused", number, b"NoPlace"),
        ChangeFault::SameName => put_word(out, b"refused", number, b"SameName"),
        ChangeFault::TooMany => put_word(out, b"refused", number, b"TooMany"),
        ChangeFault::BadWindow => put_word(out, b"refused", number, b"BadWindow"),
        ChangeFault::BadShift => put_word(out, b"refused", number, b"BadShift"),
        ChangeFault::BadTeams => put_word(out, b"refused", number, b"BadTeams"),
        ChangeFault::MissingTravel { from, to } => put_line(
            out,
            &[
                Part::Word(b"refused"),
                Part::Number(number),
                Part::Word(b"MissingTravel"),
                Part::Word(from.bytes()),
                Part::Word(to.bytes()),
            ],
        ),
        ChangeFault::FrozenWork { task } => put_line(
            out,
            &[
                Part::Word(b"refused"),
                Part::Number(number),
                Part::Word(b"FrozenWork"),
                Part::Word(task.bytes()),
            ],
        ),
    }
}

/// Writes the line of a day's refusal, with the number of its record from 1, or 0 where the text is too long. Want of
/// memory refuses no day. A fault leaves a front of the line.
pub fn put_refused<K: Sink>(out: &mut K, number: u64, cause: DayFault) -> Result<(), WriteFault>
    requires { cause ≢ DayFault.Change ChangeFault.OutOfMemory }
    ensures { Puts K.Sink (refused_line number cause) out.old out.new result }
{
    match cause {
        DayFault::TooLong => put_word(out, b"refused", number, b"TooLong"),
        DayFault::InItself(DayCause::Kind) => put_word(out, b"refused", number, b"Kind"),
        DayFault::InItself(DayCause::Field(fault)) => put_field(out, number, fault),
        DayFault::Change(fault) => put_change(out, number, fault),
    }
}
