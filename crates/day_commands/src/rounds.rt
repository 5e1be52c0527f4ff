// The rounds of a day, and what is written of each.
ghost use Rattle.std.specs.Prelude.{◌≡◌, ◌≤◌, length, List, ℕ, None, Ok, IfOk, OnErr, IsTrue, All};
ghost use Rattle.crew_terms.specs.declared.TheConstants.{LONGEST_DAY};
ghost use Rattle.crew_io.specs.Puts.{TellsWrites};
ghost use Rattle.day_terms.specs.Ranges.{IsInRange};
ghost use Rattle.day_commands.specs.Rounds.{IsFineDay, change_stop};
ghost use Rattle.day_commands.specs.Outputs.{MayHave};
ghost use Rattle.day_commands.specs.Says.{ReadsDay, SaysAt, SaysFirstOf, is_of_text, whole_end};
ghost use Rattle.day_commands.specs.Taken.{IsDay, Wrote, output_of, planning_of};
ghost use Rattle.replan.specs.Planning.{no_entry_yet};

use crate::ended::{DayOutput, Ended, refuse};
use crate::entries::{Taken, Taker};
use crate::laws::plans_to_come;
use crate::refused::DayFault;
use crew_io::sink::Sink;
use crew_io::source::Source;
use crew_io::text::{Text, read_text};
use crew_terms::LONGEST_DAY;
use day_records::{Day, read_day};
use std::alloc::{AllocError, Global};

/// How a day ends of which no record is refused.
fn whole(proved: bool) -> Ended
    ensures { result ≡ whole_end proved }
{
    if proved { Ended::Done } else { Ended::Unproved }
}

/// Writes what is asked for of each round of a day, up to the first record that is refused, and the line of that one.
fn over_entries<K: Sink>(taker: &mut Taker, day: &Day, out: &mut K) -> Result<Ended, AllocError>
    requires range { All IsInRange day.now.entries }
    requires none_yet { planning_of taker.old ≡ no_entry_yet }
    ensures says { (text : List ℕ) → IsDay text day.now.entries day.now.stop
        → IfOk result (λ ended. Wrote (K.got out.old) (K.got out.new)
        (SaysAt (output_of taker.old) ended None text)) }
    ensures memory { (text : List ℕ) → IsDay text day.now.entries day.now.stop
        → OnErr result (Wrote (K.got out.old) (K.got out.new)
        (SaysFirstOf (output_of taker.old) text)) }
    ensures others { IfOk result (λ ended. IsTrue (is_of_text (output_of taker.old) ended)) }
    ensures tells { TellsWrites K.Sink out.old out.new (result ≡ Ok Ended.WriteFault) }
{
    plans_to_come();
    let mut all_proved = true;
    let entries = day.entries.as_slice();
    for (n, entry) in entries.iter().enumerate() {
        match taker.take(entry, out)? {
            Taken::Whole { proved } => all_proved &= proved,
            Taken::Refused(fault) => return Ok(refuse(out, n as u64 + 1, fault)),
            Taken::WriteFault => return Ok(Ended::WriteFault),
        }
    }
    let Some(stop) = day.stop else {
        return Ok(whole(all_proved));
    };
    Ok(refuse(out, stop.number, DayFault::InItself(stop.cause)))
}

/// Writes what is asked for of each round of a day's text, up to the first record that is refused, and the line of that one.
fn over_text<K: Sink>(
    alloc: Global,
    output: DayOutput,
    text: &[u8],
    out: &mut K,
) -> Result<Ended, AllocError>
    requires { length text.now ≤ LONGEST_DAY }
    ensures says { IfOk result (λ ended. Wrote (K.got out.old) (K.got out.new)
        (SaysAt output ended None text.now)) }
    ensures memory { OnErr result (Wrote (K.got out.old) (K.got out.new)
        (SaysFirstOf output text.now)) }
    ensures refused { result ≡ Ok Ended.Refused → IsFineDay change_stop
        (MayHave output) text.now → ⊥ }
    ensures others { IfOk result (λ ended. IsTrue (is_of_text output ended)) }
    ensures tells { TellsWrites K.Sink out.old out.new (result ≡ Ok Ended.WriteFault) }
{
    let day = read_day(alloc, text)?;
    let mut taker = Taker::new(alloc, output);
    let ended = over_entries(&mut taker, &day, out)?;
    Ok(ended)
}

/// Reads a day, and writes what is asked for of each of its rounds, up to the first record that is refused, and the line
/// of that one; the line alone where the text is too long.
pub fn write_rounds<S: Source, K: Sink>(
    alloc: Global,
    output: DayOutput,
    src: &mut S,
    out: &mut K,
) -> Result<Ended, AllocError>
    ensures { ReadsDay S.Source K.Sink output src.old src.new out.old out.new result }
{
    match read_text(alloc, src, LONGEST_DAY)? {
        Text::Whole(text) => {
            let ended = over_text(alloc, output, text.as_slice(), out)?;
            Ok(ended)
        }
        Text::TooLong => Ok(refuse(out, 0, DayFault::TooLong)),
        Text::ReadFault => Ok(Ended::ReadFault),
    }
}
