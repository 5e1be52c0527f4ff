// What is told of the faults of a day, written.
ghost use Rattle.std.specs.Prelude.{⊤};
ghost use Rattle.crew_io.specs.Puts.{Puts};
ghost use Rattle.day_explain.specs.Text.{explanation, frozen_text, plan_text, remarks_text, told_text};

use crate::apply::put_apply;
use crate::told::Told;
use crew_io::put::put_all;
use crew_io::sink::{Sink, WriteFault};
use day_faults::DayFaults;
use each_out::{Piece, Writes, put_each, put_pieces};

/// The lines of faults.
#[derive(Drop)]
struct Lines;

impl Writes<Told> for Lines {
    ghost text = { λ s told. told_text told };

    ghost has_text = { λ s told. ⊤ };

    fn write<K: Sink>(&self, out: &mut K, item: &Told) -> Result<(), WriteFault> {
        put_pieces(
            out,
            &[
                Piece::Text(b"line "),
                Piece::Number(item.placed.line),
                Piece::Text(b": "),
                Piece::Text(item.hint.as_slice()),
                Piece::Text(b"\n"),
            ],
        )
    }
}

/// Writes that nothing will be planned, if the day has no record `plan`.
fn put_plan<K: Sink>(out: &mut K, has_plan: bool) -> Result<(), WriteFault>
    ensures { Puts K.Sink (plan_text has_plan) out.old out.new result }
{
    if has_plan {
        put_all(out, b"")
    } else {
        put_all(
            out,
            b"the day has no record plan: nothing will be planned\n",
        )
    }
}

/// Writes which record is the first that may be refused for the sake of frozen work, if one may.
fn put_frozen<K: Sink>(out: &mut K, line: Option<u64>) -> Result<(), WriteFault>
    ensures { Puts K.Sink (frozen_text line) out.old out.new result }
{
    let Some(line) = line else {
        return put_all(out, b"");
    };
    put_pieces(
        out,
        &[
            Piece::Text(b"line "),
            Piece::Number(line),
            Piece::Text(
                b": behind a record now, day may refuse a change for work that has begun, as FrozenWork;",
            ),
            Piece::Text(b" then write thaw,TASK first, or shift,TEAM,FROM,NOW\n"),
        ],
    )
}

/// Writes what is to be remarked of a day, and is no fault.
fn put_remarks<K: Sink>(out: &mut K, faults: &DayFaults) -> Result<(), WriteFault>
    ensures { Puts K.Sink (remarks_text faults.now) out.old out.new result }
{
    put_plan(out, faults.has_plan)?;
    put_frozen(out, faults.may_be_frozen)
}

/// Writes what is told of these faults of a day, what is to be remarked of it, and what `apply` would say. After a fault, a front of
/// it was written.
pub(crate) fn put_explanation<K: Sink>(
    out: &mut K,
    faults: &DayFaults,
    told: &[Told],
) -> Result<(), WriteFault>
    ensures { Puts K.Sink (explanation faults.now told.now) out.old out.new result }
{
    put_each(out, &Lines, told)?;
    put_remarks(out, faults)?;
    put_apply(out, faults.first())
}
