// The lines of minute prices.
ghost use Rattle.std.specs.Prelude.{◌≡◌, ◌<◌, codes, length, map, if◌then◌else◌};
ghost use Rattle.std.specs.Fmt.{signed_decimal};
ghost use Rattle.std.specs.List.{flat_map};
ghost use Rattle.crew_terms.specs.Words.{line_text};
ghost use Rattle.crew_io.specs.Puts.{Puts};
ghost use Rattle.line_out.specs.Parts.{next_word};
ghost use Rattle.sheet_terms.specs.Lines.{minutes_line, minutes_lines};
ghost use Rattle.squeeze_terms.specs.MinutePrices.{is_joint as needs_teams};

use crew_instance::Instance;
use crew_io::put::put_all;
use crew_io::sink::{Sink, WriteFault};
use crew_terms::Task;
use dossier_out::number;
use line_out::{Part, put_next};
use minute_prices::{MinutePrices, is_joint};

/// The words of these numbers, behind others of a line.
fn put_numbers<K: Sink>(out: &mut K, numbers: &[i64]) -> Result<(), WriteFault>
    ensures { Puts K.Sink (flat_map next_word (map signed_decimal numbers.now)) out.old
        out.new result }
{
    for v in numbers {
        put_next(out, &Part::Signed(*v))?;
    }
    Ok(())
}

/// The first word of the line of a task's prices: a joint task has one for each minute.
fn price_word(task: &Task) -> &'static [u8]
    ensures { result.now ≡ (if needs_teams task.now then codes "clock" else codes "price") }
{
    if is_joint(task) {
        b"clock".as_slice()
    } else {
        b"price".as_slice()
    }
}

/// The line of the prices of task `j`.
fn put_minutes<K: Sink>(
    out: &mut K,
    instance: &Instance,
    j: u32,
    row: &[i64],
) -> Result<(), WriteFault>
    requires { j < length instance.now.tasks }
    ensures { Puts K.Sink (line_text (minutes_line instance.now j row.now)) out.old out.new result }
{
    put_all(out, price_word(instance.task(j)))?;
    put_next(out, &number(j))?;
    put_numbers(out, row)?;
    put_all(out, b"\n")
}

/// The lines of the prices of all tasks.
pub(crate) fn put_prices<K: Sink>(
    out: &mut K,
    instance: &Instance,
    prices: &MinutePrices,
) -> Result<(), WriteFault>
    requires { length prices.now ≡ length instance.now.tasks }
    ensures { Puts K.Sink (flat_map line_text (minutes_lines instance.now 0 prices.now)) out.old
        out.new result }
{
    for j in 0..instance.tasks() as u32 {
        put_minutes(out, instance, j, prices.row(j))?;
    }
    Ok(())
}
