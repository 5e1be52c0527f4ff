// The top call.
ghost use Rattle.std.specs.Prelude.{◌≡◌, ◌≢◌, ◌≤◌, ◌↔◌, ◌⊎◌, ℕ, List, [], ◌∷◌, map, string_bytes, IfSome, IsTrue, MatchOption};
ghost use Rattle.crew_io.specs.Io.{HasEnded, Rose};
ghost use Rattle.crew_io.specs.Bytes.{OfBytes};
ghost use Rattle.parts_cli.specs.Status.{pieces_status, check_status, is_done};
ghost use Rattle.parts_cli.specs.Run.{Answers, AskFor, promises_of};

pub use crate::status::Status;
use crate::words::{OnePart, Parts};
use bundle_command::{Job, PiecesEnded, write_pieces};
use crew_io::sink::Sink;
use crew_io::source::Source;
use dossier_commands::Ended;
use parts_command::read_bundles;
use std::alloc::{AllocError, Global};

/// What the words ask for.
#[derive(Clone, Copy, Debug, PartialEq, Eq)]
pub enum Command {
    /// `parts-check`: read bundles, and write a yes line for each good one.
    PartsCheck,
    /// `parts-cut`: read dossiers, and write for each good one how many parts its day has.
    PartsCut,
    /// `parts`: read dossiers, and write for each good one a bundle, whose parts are planned on their own.
    Parts(Parts),
    /// `part`: read dossiers, and write for each good one the dossier of one part of its day.
    Part(OnePart),
}

/// Whether the words are the one word.
fn asks_for(words: &[String], word: &str) -> bool
    ensures { IsTrue result ↔ (map (λ w. string_bytes w) words.now ≡ word.now ∷ []) }
{
    words.len() == 1 && words[0].as_str() == word
}

impl Command {
    /// What the words ask for; None exactly where they are none of the forms.
    fn of(words: &[String]) -> Option<Command>
        ensures { MatchOption result
            ((command : Command) → AskFor command (map (λ w. string_bytes w) words.now) → ⊥)
            (λ command. AskFor command (map (λ w. string_bytes w) words.now)) }
    {
        if asks_for(words, "parts-check") {
            return Some(Command::PartsCheck);
        }
        if asks_for(words, "parts-cut") {
            return Some(Command::PartsCut);
        }
        if let Some(parts) = Parts::of(words) {
            return Some(Command::Parts(parts));
        }
        Some(Command::Part(OnePart::of(words)?))
    }
}

/// The status of a check of bundles.
fn of_check(ended: Result<Ended, AllocError>) -> Status
    ensures { result ≡ check_status ended }
{
    match ended {
        Ok(Ended::Done) => Status::Done,
        Ok(Ended::No) => Status::No,
        Ok(Ended::ReadFault) => Status::ReadFault,
        Ok(Ended::WriteFault) => Status::WriteFault,
        Err(AllocError) => Status::Memory,
    }
}

/// The status of pieces that are written.
fn of_pieces(ended: Result<PiecesEnded, AllocError>) -> Status
    ensures { result ≡ pieces_status ended }
{
    match ended {
        Ok(PiecesEnded::Proved) => Status::Done,
        Ok(PiecesEnded::Open) => Status::Unproved,
        Ok(PiecesEnded::No) => Status::No,
        Ok(PiecesEnded::ReadFault) => Status::ReadFault,
        Ok(PiecesEnded::WriteFault) => Status::WriteFault,
        Err(AllocError) => Status::Memory,
    }
}

/// Does what a command asks for, but for the flush.
fn answer<S: Source, K: Sink>(alloc: Global, command: Command, src: &mut S, out: &mut K) -> Status
    requires { (promises_of command).in_range }
    ensures { Answers S.Source K.Sink (promises_of command)
        src.old src.new out.old out.new result }
{
    match command {
        Command::PartsCheck => of_check(read_bundles(alloc, src, out)),
        Command::PartsCut => of_pieces(write_pieces(alloc, Job::Count, src, out)),
        Command::Parts(parts) => {
            let job = Job::Bundle { nodes: parts.nodes };
            of_pieces(write_pieces(alloc, job, src, out))
        }
        Command::Part(part) => {
            let job = Job::Part {
                nodes: part.nodes,
                number: part.number - 1,
            };
            of_pieces(write_pieces(alloc, job, src, out))
        }
    }
}

/// Does what the words ask for. With `parts-check` it reads one bundle after another, and writes a line `yes` with its counts for
/// each good one; at the first line that is refused it writes a line `no` with its number and the reason, and ends. With `parts` it
/// reads one dossier after another, divides the day of each good one into parts, plans each of these on its own with a budget of so
/// many nodes, and writes a bundle, which `parts-check` says yes to, or the line `no` of the first line that is refused. With
/// `parts-cut` it writes for each good dossier a line `parts` with the number of parts that its day has, and with `part` the dossier of
/// one of them. Other words have no form: nothing is read or written.
pub fn run<S: Source, K: Sink>(alloc: Global, words: &[String], src: &mut S, out: &mut K) -> Status
    // Each status tells what the input is and what was written, also at a fault.
    ensures says { (command : Command) → AskFor command (map (λ w. string_bytes w) words.now)
        → OfBytes (S.left src.old) (K.got out.old) (K.got out.new)
        ((promises_of command).says result (S.left src.new)) }

    // Each command ends with one of its own statuses, whatever the source and the sink tell.
    ensures ends { (command : Command) → AskFor command (map (λ w. string_bytes w) words.now)
        → IsTrue ((promises_of command).ends_with result) }

    // What is done was read to its end.
    ensures ended { (command : Command) → AskFor command (map (λ w. string_bytes w) words.now)
        → IsTrue (is_done result) → HasEnded (S.left src.new) }

    // Without a write fault, all that was written is passed on.
    ensures flushed { result ≢ Status.Words → result ≢ Status.WriteFault → K.held out.new ≡ [] }

    ensures words { (result ≡ Status.Words)
        ↔ ((command : Command) → AskFor command (map (λ w. string_bytes w) words.now) → ⊥) }
    ensures untouched { result ≡ Status.Words → (src.new ≡ src.old) × (out.new ≡ out.old) }

    // A fault is answered only where its count rose in this call, and never of what does not fail.
    ensures read_fault { result ≡ Status.ReadFault → Rose (S.faults src.old) (S.faults src.new) }
    ensures write_fault { result ≡ Status.WriteFault → Rose (K.faults out.old) (K.faults out.new) }
    ensures source_later { S.faults src.old ≤ S.faults src.new }
    ensures sink_later { K.faults out.old ≤ K.faults out.new }
    ensures steady_source { S.steady src.old → result ≢ Status.ReadFault }
    ensures steady_sink { K.steady out.old → result ≡ Status.WriteFault → K.full out.new }

    // Each fault that came is told; only that of a read gives way to that of the flush behind it. What was written is
    // then the same.
    ensures read_told { result ≢ Status.ReadFault → result ≢ Status.WriteFault
        → S.faults src.new ≡ S.faults src.old }
    ensures write_told { result ≢ Status.WriteFault → K.faults out.new ≡ K.faults out.old }
    ensures read_says { (command : Command) → AskFor command (map (λ w. string_bytes w) words.now)
        → S.faults src.new ≢ S.faults src.old
        → OfBytes (S.left src.old) (K.got out.old) (K.got out.new)
        ((promises_of command).says Status.ReadFault (S.left src.new)) }

    // Where no count of faults rises, each input that is fine is done, or memory was wanting.
    ensures complete { (command : Command) → AskFor command (map (λ w. string_bytes w) words.now)
        → IfSome (S.left src.old) (λ input. (promises_of command).fine input
        → (Rose (S.faults src.old) (S.faults src.new) → ⊥)
        → (Rose (K.faults out.old) (K.faults out.new) → ⊥)
        → IsTrue (is_done result) ⊎ (result ≡ Status.Memory)) }
{
    let Some(command) = Command::of(words) else {
        return Status::Words;
    };
    let status = answer(alloc, command, src, out);
    match out.flush() {
        Ok(()) => status,
        Err(_) => Status::WriteFault,
    }
}
