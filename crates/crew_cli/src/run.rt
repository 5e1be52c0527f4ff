// The top call.
ghost use Rattle.std.specs.Prelude.{◌≡◌, ◌≢◌, ◌≤◌, ◌↔◌, ◌⊎◌, ℕ, List, [], ◌∷◌, false, map, string_bytes, IfSome, IsTrue, MatchOption};
ghost use Rattle.crew_io.specs.Io.{HasEnded, Rose};
ghost use Rattle.crew_io.specs.Bytes.{OfBytes};
ghost use Rattle.dossier_commands.specs.Outputs.{output_of};
ghost use Rattle.crew_cli.specs.Status.{audit_status, dossiers_status, day_status, trial_status, is_done};
ghost use Rattle.crew_cli.specs.Run.{Answers, AskFor, over_days, over_dossiers, promises_of};

pub use crate::status::Status;
use audit_command::audit_day;
use crew_io::sink::Sink;
use crew_io::source::Source;
use day_commands::{DayOutput, write_rounds};
use delay_command::write_delays;
use dossier_commands::{Output, read_dossiers};
use sheet_commands::read_sheets;
use squeeze_command::{Squeeze, squeeze_dossiers};
use std::alloc::{AllocError, Global};
use trial_command::{Trial, TrialEnded, write_trial};

/// What the words ask for.
#[derive(Clone, Copy, Debug, PartialEq, Eq)]
pub enum Command {
    /// `check`: read dossiers, and write a yes line for each good one.
    Check,
    /// `rosters`: read dossiers, and write the roster of each good one.
    Rosters,
    /// `why`: read dossiers, and write of each good one what is in the way of its open tasks.
    Why,
    /// `delays`: read tasks that end late and one dossier, and write what waits for what.
    Delays,
    /// `squeeze`: read dossiers, and write a sheet of minute prices for each good one.
    Squeeze(Squeeze),
    /// `squeeze-check`: read sheets of minute prices, and write a yes line for each good one.
    SqueezeCheck,
    /// `apply`: read a day, and write the instance of each round.
    Apply,
    /// `day`: read a day, and write a dossier of each round.
    Day,
    /// `audit`: read a day and dossiers, and write whether these belong to it.
    Audit,
    /// `trial`: read nothing; plan a generated day, and write the line of its dossier.
    Trial(Trial),
}

/// Whether the words are the one word.
fn asks_for(words: &[String], word: &str) -> bool
    ensures { IsTrue result ↔ (map (λ w. string_bytes w) words.now ≡ word.now ∷ []) }
{
    words.len() == 1 && words[0].as_str() == word
}

impl Command {
    /// What the words ask for; None exactly where they are none of the forms.
    fn of(words: &[String]) -> Option<Command>
        ensures { MatchOption result
            ((command : Command) → AskFor command (map (λ w. string_bytes w) words.now) → ⊥)
            (λ command. AskFor command (map (λ w. string_bytes w) words.now)) }
    {
        if asks_for(words, "check") {
            return Some(Command::Check);
        }
        if asks_for(words, "rosters") {
            return Some(Command::Rosters);
        }
        if asks_for(words, "why") {
            return Some(Command::Why);
        }
        if asks_for(words, "delays") {
            return Some(Command::Delays);
        }
        if asks_for(words, "apply") {
            return Some(Command::Apply);
        }
        if asks_for(words, "day") {
            return Some(Command::Day);
        }
        if asks_for(words, "audit") {
            return Some(Command::Audit);
        }
        if asks_for(words, "squeeze-check") {
            return Some(Command::SqueezeCheck);
        }
        if let Some(squeeze) = Squeeze::of(words) {
            return Some(Command::Squeeze(squeeze));
        }
        Some(Command::Trial(Trial::of(words)?))
    }
}

/// The status of a command over dossiers, or over sheets.
fn of_dossiers(ended: Result<dossier_commands::Ended, AllocError>) -> Status
    ensures { result ≡ dossiers_status ended }
{
    match ended {
        Ok(dossier_commands::Ended::Done) => Status::Done,
        Ok(dossier_commands::Ended::No) => Status::No,
        Ok(dossier_commands::Ended::ReadFault) => Status::ReadFault,
        Ok(dossier_commands::Ended::WriteFault) => Status::WriteFault,
        Err(AllocError) => Status::Memory,
    }
}

/// The status of a command over days.
fn of_day(ended: Result<day_commands::Ended, AllocError>) -> Status
    ensures { result ≡ day_status ended }
{
    match ended {
        Ok(day_commands::Ended::Done) => Status::Done,
        Ok(day_commands::Ended::Unproved) => Status::Unproved,
        Ok(day_commands::Ended::Refused) => Status::Refused,
        Ok(day_commands::Ended::ReadFault) => Status::ReadFault,
        Ok(day_commands::Ended::WriteFault) => Status::WriteFault,
        Err(AllocError) => Status::Memory,
    }
}

/// The status of an audit.
fn of_audit(ended: Result<audit_command::Ended, AllocError>) -> Status
    ensures { result ≡ audit_status ended }
{
    match ended {
        Ok(audit_command::Ended::Done) => Status::Done,
        Ok(audit_command::Ended::No) => Status::No,
        Ok(audit_command::Ended::Refused) => Status::Refused,
        Ok(audit_command::Ended::ReadFault) => Status::ReadFault,
        Ok(audit_command::Ended::WriteFault) => Status::WriteFault,
        Err(AllocError) => Status::Memory,
    }
}

/// The status of a trial.
fn of_trial(ended: Result<TrialEnded, AllocError>) -> Status
    ensures { result ≡ trial_status ended }
{
    match ended {
        Ok(TrialEnded::Done) => Status::Done,
        Ok(TrialEnded::Unproved) => Status::Unproved,
        Ok(TrialEnded::WriteFault) => Status::WriteFault,
        Err(AllocError) => Status::Memory,
    }
}

/// Reads dossiers, and writes what is asked for of each good one.
fn read_all<S: Source, K: Sink>(alloc: Global, output: Output, src: &mut S, out: &mut K) -> Status
    ensures { (word : List ℕ) → Answers S.Source K.Sink (over_dossiers word (output_of output))
        src.old src.new out.old out.new result }
{
    of_dossiers(read_dossiers(alloc, output, src, out))
}

/// Reads a day, and writes what is asked for of each round.
fn plan_day<S: Source, K: Sink>(
    alloc: Global,
    output: DayOutput,
    src: &mut S,
    out: &mut K,
) -> Status
    ensures { (word : List ℕ) → Answers S.Source K.Sink (over_days word output)
        src.old src.new out.old out.new result }
{
    of_day(write_rounds(alloc, output, src, out))
}

/// Does what a command asks for, but for the flush.
fn answer<S: Source, K: Sink>(alloc: Global, command: Command, src: &mut S, out: &mut K) -> Status
    requires { (promises_of command).in_range }
    ensures { Answers S.Source K.Sink (promises_of command)
        src.old src.new out.old out.new result }
{
    match command {
        Command::Check => read_all(alloc, Output::YesLines, src, out),
        Command::Rosters => read_all(alloc, Output::Rosters, src, out),
        Command::Why => read_all(alloc, Output::Why, src, out),
        Command::Delays => of_dossiers(write_delays(alloc, src, out)),
        Command::Squeeze(squeeze) => {
            of_dossiers(squeeze_dossiers(alloc, squeeze.steps, src, out))
        }
        Command::SqueezeCheck => of_dossiers(read_sheets(alloc, src, out)),
        Command::Apply => plan_day(alloc, DayOutput::Instances, src, out),
        Command::Day => plan_day(alloc, DayOutput::Dossiers, src, out),
        Command::Audit => of_audit(audit_day(alloc, src, out)),
        Command::Trial(trial) => of_trial(write_trial(alloc, trial, out)),
    }
}

/// Does what the words ask for. With `check` it reads one dossier after another, and writes a line `yes` with its
/// counts for each good one; at the first line that is refused it writes a line `no` with its number and the reason,
/// and ends. With `rosters` it does the same, and writes the roster of each good dossier in place of its line; with `why` what
/// is in the way of its open tasks. With `delays` it reads which tasks end late, and one dossier, and writes what waits for
/// what in its plan, or the line `no` of the first line that is refused. With `squeeze` it reads dossiers as `check` does, and
/// writes for each good one a sheet: a bound, with a price for each start minute of a joint task that proves it. With
/// `squeeze-check` it reads such sheets, and writes for each good one a line `yes bound` with its bound, or the line `no` of the
/// first line that is refused. With
/// `apply` it reads a day, and writes the instance of each round, up to the first record that is refused, and a line
/// `refused` for that one. With `day` it does the same, and plans each round: it writes a dossier of it, which `check` says
/// yes to. With `audit` it reads a day, the line `dossiers` and dossiers, and writes one line: that the dossiers belong to the
/// day, or the first thing that differs. With `trial` it reads nothing: it plans a generated day, and writes one line with the
/// numbers of its dossier. Other words have no form: nothing is read or written.
pub fn run<S: Source, K: Sink>(alloc: Global, words: &[String], src: &mut S, out: &mut K) -> Status
    // Each status tells what the input is and what was written, also at a fault.
    ensures says { (command : Command) → AskFor command (map (λ w. string_bytes w) words.now)
        → OfBytes (S.left src.old) (K.got out.old) (K.got out.new)
        ((promises_of command).says result (S.left src.new)) }

    // Each command ends with one of its own statuses, whatever the source and the sink tell.
    ensures ends { (command : Command) → AskFor command (map (λ w. string_bytes w) words.now)
        → IsTrue ((promises_of command).ends_with result) }

    // What is done was read to its end, but by a command that reads nothing: it leaves the source as it was.
    ensures ended { (command : Command) → AskFor command (map (λ w. string_bytes w) words.now)
        → IsTrue (promises_of command).reads
        → IsTrue (is_done result) → HasEnded (S.left src.new) }
    ensures unread { (command : Command) → AskFor command (map (λ w. string_bytes w) words.now)
        → (promises_of command).reads ≡ false
        → src.new ≡ src.old }

    // Without a write fault, all that was written is passed on.
    ensures flushed { result ≢ Status.Words → result ≢ Status.WriteFault → K.held out.new ≡ [] }

    ensures words { (result ≡ Status.Words)
        ↔ ((command : Command) → AskFor command (map (λ w. string_bytes w) words.now) → ⊥) }
    ensures untouched { result ≡ Status.Words → (src.new ≡ src.old) × (out.new ≡ out.old) }

    // A fault is answered only where its count rose in this call, and never of what does not fail.
    ensures read_fault { result ≡ Status.ReadFault → Rose (S.faults src.old) (S.faults src.new) }
    ensures write_fault { result ≡ Status.WriteFault → Rose (K.faults out.old) (K.faults out.new) }
    ensures source_later { S.faults src.old ≤ S.faults src.new }
    ensures sink_later { K.faults out.old ≤ K.faults out.new }
    ensures steady_source { S.steady src.old → result ≢ Status.ReadFault }
    ensures steady_sink { K.steady out.old → result ≡ Status.WriteFault → K.full out.new }

    // Each fault that came is told; only that of a read gives way to that of the flush behind it. What was written is
    // then the same.
    ensures read_told { result ≢ Status.ReadFault → result ≢ Status.WriteFault
        → S.faults src.new ≡ S.faults src.old }
    ensures write_told { result ≢ Status.WriteFault → K.faults out.new ≡ K.faults out.old }
    ensures read_says { (command : Command) → AskFor command (map (λ w. string_bytes w) words.now)
        → S.faults src.new ≢ S.faults src.old
        → OfBytes (S.left src.old) (K.got out.old) (K.got out.new)
        ((promises_of command).says Status.ReadFault (S.left src.new)) }

    // Where no count of faults rises, each input that is fine is done, or memory was wanting.
    ensures complete { (command : Command) → AskFor command (map (λ w. string_bytes w) words.now)
        → IfSome (S.left src.old) (λ input. (promises_of command).fine input
        → (Rose (S.faults src.old) (S.faults src.new) → ⊥)
        → (Rose (K.faults out.old) (K.faults out.new) → ⊥)
        → IsTrue (is_done result) ⊎ (result ≡ Status.Memory)) }
{
    let Some(command) = Command::of(words) else {
        return Status::Words;
    };
    let status = answer(alloc, command, src, out);
    match out.flush() {
        Ok(()) => status,
        Err(_) => Status::WriteFault,
    }
}
