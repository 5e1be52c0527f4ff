// What a command over a day writes, and how it ends.
ghost use Rattle.std.specs.Prelude.{◌≡◌, ◌≢◌, IsTrue};
ghost use Rattle.crew_io.specs.Io.{Appended, AppendedPart};
ghost use Rattle.crew_io.specs.Puts.{TellsWrites};
ghost use Rattle.day_commands.specs.Says.{is_refused_or_write_fault};
ghost use Rattle.day_commands.specs.Refused.{refused_line};

use crate::refused::{DayFault, put_refused};
use crew_io::sink::{Sink, WriteFault};
use flight_changes::ChangeFault;

/// What is written of each round of a day.
#[derive(Clone, Copy, Debug, PartialEq, Eq)]
pub enum DayOutput {
    /// Its instance.
    Instances,
    /// A dossier of it.
    Dossiers,
}

/// How a command over a day ended.
#[derive(Clone, Copy, Debug, PartialEq, Eq)]
pub enum Ended {
    /// No record is refused; and of each dossier that was written the plan leaves as few tasks unassigned as any.
    Done,
    /// No record is refused, and some dossier does not show whether another plan leaves fewer.
    Unproved,
    /// A record is refused, or the text is too long.
    Refused,
    /// A read failed.
    ReadFault,
    /// A write failed.
    WriteFault,
}

/// Writes the line of the refused record of a day.
pub(crate) fn refuse<K: Sink>(out: &mut K, number: u64, cause: DayFault) -> Ended
    requires { cause ≢ DayFault.Change ChangeFault.OutOfMemory }
    ensures refused { result ≡ Ended.Refused → Appended (K.got out.old) (K.got out.new)
        (refused_line number cause) }
    ensures part { AppendedPart (K.got out.old) (K.got out.new) (refused_line number cause) }
    ensures others { IsTrue (is_refused_or_write_fault result) }
    ensures tells { TellsWrites K.Sink out.old out.new (result ≡ Ended.WriteFault) }
{
    match put_refused(out, number, cause) {
        Ok(()) => Ended::Refused,
        Err(WriteFault) => Ended::WriteFault,
    }
}
