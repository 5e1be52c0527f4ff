// What `apply` would say of a day.
ghost use Rattle.std.specs.Prelude.{◌≡◌};
ghost use Rattle.crew_io.specs.Puts.{Puts};
ghost use Rattle.day_explain.specs.Text.{apply_text, change_word, refused_text};

use crew_io::put::put_all;
use crew_io::sink::{Sink, WriteFault};
use day_faults::{Stop, StopCause};
use day_terms::DayCause;
use field_table::{Cause, FieldFault};
use flight_changes::ChangeFault;
use line_out::{Part, put_line, put_word};

/// Writes the line of a record with another number of fields than its kind has, or with a bad field.
fn put_field<K: Sink>(out: &mut K, number: u64, fault: FieldFault) -> Result<(), WriteFault>
    ensures { Puts K.Sink (refused_text number (StopCause.InItself (DayCause.Field fault)))
        out.old out.new result }
{
    let refused = Part::Word(b"refused");
    let at = Part::Number(number);
    let place = Part::Number(fault.place as u64);
    match fault.cause {
        Cause::Count => put_word(out, b"refused", number, b"Count"),
        Cause::Spelling => put_line(out, &[refused, at, Part::Word(b"Spelling"), place]),
        Cause::Range => put_line(out, &[refused, at, Part::Word(b"Range"), place]),
    }
}

/// The word for why the state refuses a record.
fn change_word(fault: &ChangeFault) -> &'static [u8]
    ensures { result.now ≡ change_word fault.now }
{
    match fault {
        ChangeFault::OutOfMemory => b"OutOfMemory",
        ChangeFault::NoTask => b"NoTask",
        ChangeFault::NoTeam => b"NoTeam",
        ChangeFault::NoPlace => b"NoPlace",
        ChangeFault::SameName => b"SameName",
        ChangeFault::TooMany => b"TooMany",
        ChangeFault::BadWindow => b"BadWindow",
        ChangeFault::BadShift => b"BadShift",
        ChangeFault::BadTeams => b"BadTeams",
        ChangeFault::MissingTravel { .. } => b"MissingTravel",
        ChangeFault::FrozenWork { .. } => b"FrozenWork",
    }
}

/// Writes the line of a record that the state refuses.
fn put_change<K: Sink>(out: &mut K, number: u64, fault: ChangeFault) -> Result<(), WriteFault>
    ensures { Puts K.Sink (refused_text number (StopCause.Change fault)) out.old out.new result }
{
    let refused = Part::Word(b"refused");
    let at = Part::Number(number);
    let word = change_word(&fault);
    match fault {
        ChangeFault::MissingTravel { from, to } => {
            let (from, to) = (Part::Word(from.bytes()), Part::Word(to.bytes()));
            put_line(out, &[refused, at, Part::Word(word), from, to])
        }
        ChangeFault::FrozenWork { task } => {
            put_line(
                out,
                &[refused, at, Part::Word(word), Part::Word(task.bytes())],
            )
        }
        _ => put_word(out, b"refused", number, word),
    }
}

/// Writes the line that `apply` writes of a record that it refuses.
fn put_refused<K: Sink>(out: &mut K, stop: Stop) -> Result<(), WriteFault>
    ensures { Puts K.Sink (refused_text stop.number stop.cause) out.old out.new result }
{
    let number = stop.number;
    match stop.cause {
        StopCause::InItself(DayCause::Kind) => put_word(out, b"refused", number, b"Kind"),
        StopCause::InItself(DayCause::Field(fault)) => put_field(out, number, fault),
        StopCause::Change(fault) => put_change(out, number, fault),
    }
}

/// Writes what `apply` would say of a day that it refuses for this record, or of one that it does not.
pub(crate) fn put_apply<K: Sink>(out: &mut K, stop: Option<Stop>) -> Result<(), WriteFault>
    ensures { Puts K.Sink (apply_text stop) out.old out.new result }
{
    let Some(stop) = stop else {
        return put_all(out, b"apply would refuse nothing\n");
    };
    put_all(out, b"apply would say: ")?;
    put_refused(out, stop)
}
