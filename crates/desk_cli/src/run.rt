// The top call.
ghost use Rattle.std.specs.Prelude.{◌≡◌, ◌≢◌, ◌≤◌, ◌↔◌, ◌⊎◌, ℕ, List, [], ◌∷◌, map, string_bytes, IfSome, IsTrue, MatchOption, None};
ghost use Rattle.crew_io.specs.Io.{HasEnded, Rose};
ghost use Rattle.crew_io.specs.Bytes.{OfBytes};
ghost use Rattle.desk_cli.specs.Run.{Answers, AskFor, over_day, over_dossiers, promises_of};
ghost use Rattle.desk_cli.specs.Status.{day_outcome, outcome_of};

use crate::status::Status;
use crew_io::sink::Sink;
use crew_io::source::Source;
use day_explain::{Ended as DayEnded, explain};
use desk_commands::{DeskOutput, Ended, Refusal, read_desk};
use std::alloc::{AllocError, Global};

/// What the words ask for.
#[derive(Clone, Copy, Debug, PartialEq, Eq)]
pub enum Command {
    /// `changes`: read dossiers, and write what changed from each good one to the next.
    Changes,
    /// `picture`: read dossiers, and write a page with a chart of the plan of each good one.
    Picture,
    /// `explain`: read a day, and write all that is wrong with it.
    Explain,
}

/// What the top call answers: how it ended, and of dossiers the first line that is refused, where one is. Nothing of that line was
/// written to the sink: the program tells it elsewhere.
#[derive(Clone, Copy, Debug, PartialEq, Eq)]
pub struct Outcome {
    pub status: Status,
    pub refusal: Option<Refusal>,
}

impl Outcome {
    /// An outcome that tells no line.
    fn of(status: Status) -> Outcome
        ensures { result ≡ record { status = status; refusal = None } }
    {
        Outcome {
            status,
            refusal: None,
        }
    }
}

/// Whether the words are the one word.
fn asks_for(words: &[String], word: &str) -> bool
    ensures { IsTrue result ↔ (map (λ w. string_bytes w) words.now ≡ word.now ∷ []) }
{
    words.len() == 1 && words[0].as_str() == word
}

impl Command {
    /// What the words ask for; None exactly where they are none of the forms.
    fn of(words: &[String]) -> Option<Command>
        ensures { MatchOption result
            ((command : Command) → AskFor command (map (λ w. string_bytes w) words.now) → ⊥)
            (λ command. AskFor command (map (λ w. string_bytes w) words.now)) }
    {
        if asks_for(words, "changes") {
            return Some(Command::Changes);
        }
        if asks_for(words, "picture") {
            return Some(Command::Picture);
        }
        if asks_for(words, "explain") {
            return Some(Command::Explain);
        }
        None
    }
}

/// The outcome of a command over dossiers.
fn of_dossiers(ended: Result<Ended, AllocError>) -> Outcome
    ensures { result ≡ outcome_of ended }
{
    match ended {
        Ok(Ended::Done) => Outcome::of(Status::Done),
        Ok(Ended::No(refusal)) => Outcome {
            status: Status::No,
            refusal: Some(refusal),
        },
        Ok(Ended::ReadFault) => Outcome::of(Status::ReadFault),
        Ok(Ended::WriteFault) => Outcome::of(Status::WriteFault),
        Err(AllocError) => Outcome::of(Status::Memory),
    }
}

/// The outcome of a command over a day.
fn of_day(ended: Result<DayEnded, AllocError>) -> Outcome
    ensures { result ≡ day_outcome ended }
{
    match ended {
        Ok(DayEnded::Fine) => Outcome::of(Status::Done),
        Ok(DayEnded::Wrong) => Outcome::of(Status::No),
        Ok(DayEnded::ReadFault) => Outcome::of(Status::ReadFault),
        Ok(DayEnded::WriteFault) => Outcome::of(Status::WriteFault),
        Err(AllocError) => Outcome::of(Status::Memory),
    }
}

/// Reads dossiers, and writes what is asked for of the good ones.
fn read_all<S: Source, K: Sink>(
    alloc: Global,
    output: DeskOutput,
    src: &mut S,
    out: &mut K,
) -> Outcome
    ensures { (word : List ℕ) → Answers S.Source K.Sink (over_dossiers word output)
        src.old src.new out.old out.new result }
{
    of_dossiers(read_desk(alloc, output, src, out))
}

/// Reads a day, and writes what is wrong with it.
fn read_day<S: Source, K: Sink>(alloc: Global, src: &mut S, out: &mut K) -> Outcome
    ensures { (word : List ℕ) → Answers S.Source K.Sink (over_day word)
        src.old src.new out.old out.new result }
{
    of_day(explain(alloc, src, out))
}

/// Does what a command asks for, but for the flush.
fn answer<S: Source, K: Sink>(alloc: Global, command: Command, src: &mut S, out: &mut K) -> Outcome
    ensures { Answers S.Source K.Sink (promises_of command) src.old src.new out.old out.new result }
{
    match command {
        Command::Changes => read_all(alloc, DeskOutput::Changes, src, out),
        Command::Picture => read_all(alloc, DeskOutput::Picture, src, out),
        Command::Explain => read_day(alloc, src, out),
    }
}

/// Does what the words ask for. With `changes` it reads one dossier after another, and writes what changed from each good one to
/// the next, with `picture` a page with a chart of the plan of each good one. At the first line that is refused it ends what it
/// writes as at the end of the input, and tells the line in its outcome. With `explain` it reads a day, and writes what is wrong with
/// it. Other words have no form: nothing is read or written.
pub fn run<S: Source, K: Sink>(alloc: Global, words: &[String], src: &mut S, out: &mut K) -> Outcome
    // Each outcome tells what the input is and what was written, also at a fault.
    ensures says { (command : Command) → AskFor command (map (λ w. string_bytes w) words.now)
        → OfBytes (S.left src.old) (K.got out.old) (K.got out.new)
        ((promises_of command).says result (S.left src.new)) }

    // What is done was read to its end.
    ensures ended { (command : Command) → AskFor command (map (λ w. string_bytes w) words.now)
        → result.status ≡ Status.Done → HasEnded (S.left src.new) }

    // Without a write fault, all that was written is passed on.
    ensures flushed { result.status ≢ Status.Words → result.status ≢ Status.WriteFault
        → K.held out.new ≡ [] }

    ensures words { (result.status ≡ Status.Words)
        ↔ ((command : Command) → AskFor command (map (λ w. string_bytes w) words.now) → ⊥) }
    ensures untouched { result.status ≡ Status.Words
        → (src.new ≡ src.old) × (out.new ≡ out.old) }

    // A fault is answered only where its count rose in this call, and never of what does not fail.
    ensures read_fault { result.status ≡ Status.ReadFault
        → Rose (S.faults src.old) (S.faults src.new) }
    ensures write_fault { result.status ≡ Status.WriteFault
        → Rose (K.faults out.old) (K.faults out.new) }
    ensures source_later { S.faults src.old ≤ S.faults src.new }
    ensures sink_later { K.faults out.old ≤ K.faults out.new }
    ensures steady_source { S.steady src.old → result.status ≢ Status.ReadFault }
    ensures steady_sink { K.steady out.old → result.status ≡ Status.WriteFault → K.full out.new }

    // Where no count of faults rises, each input that is fine is done, or memory was wanting.
    ensures complete { (command : Command) → AskFor command (map (λ w. string_bytes w) words.now)
        → IfSome (S.left src.old) (λ input. (promises_of command).fine input
        → (Rose (S.faults src.old) (S.faults src.new) → ⊥)
        → (Rose (K.faults out.old) (K.faults out.new) → ⊥)
        → (result.status ≡ Status.Done) ⊎ (result.status ≡ Status.Memory)) }
{
    let Some(command) = Command::of(words) else {
        return Outcome::of(Status::Words);
    };
    let outcome = answer(alloc, command, src, out);
    match out.flush() {
        Ok(()) => outcome,
        Err(_) => Outcome::of(Status::WriteFault),
    }
}
