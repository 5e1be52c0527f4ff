// The top call over sources and sinks in memory, and over such as do not fail.
ghost use Rattle.std.specs.Prelude.{◌≡◌, ◌≢◌, ◌≤◌, ◌↔◌, ◌⊎◌, ◌++◌, ℕ, List, Some, [], false, length, map, string_bytes, IsTrue};
ghost use Rattle.crew_io.specs.Io.{Rose};
ghost use Rattle.crew_cli.specs.Run.{AskFor, promises_of};
ghost use Rattle.crew_cli.specs.Status.{is_done};
ghost use Rattle.crew_cli.specs.declared.run.Command.{Command};

use crate::run::{Status, run};
use crew_io::sink::{MemSink, SteadySink};
use crew_io::source::{MemSource, SteadySource};
use std::alloc::Global;

/// The top call over a source and a sink that never fail: it answers no fault.
pub fn run_steady(
    alloc: Global,
    words: &[String],
    src: &mut SteadySource,
    out: &mut SteadySink,
) -> Status
    // Each status tells what the input is.
    ensures says { (command : Command) → AskFor command (map (λ w. string_bytes w) words.now)
        → (written : List ℕ) × (promises_of command).says result (Some src.new.left) src.old.left written }

    // Each input that is fine is done, or memory was wanting.
    ensures complete { (command : Command) → AskFor command (map (λ w. string_bytes w) words.now)
        → (promises_of command).fine src.old.left → IsTrue (is_done result) ⊎ (result ≡ Status.Memory) }

    ensures words { (result ≡ Status.Words)
        ↔ ((command : Command) → AskFor command (map (λ w. string_bytes w) words.now) → ⊥) }
    ensures untouched { result ≡ Status.Words → src.new ≡ src.old }
    ensures ended { (command : Command) → AskFor command (map (λ w. string_bytes w) words.now)
        → IsTrue (promises_of command).reads
        → IsTrue (is_done result) → src.new.left ≡ [] }
    ensures unread { (command : Command) → AskFor command (map (λ w. string_bytes w) words.now)
        → (promises_of command).reads ≡ false
        → src.new ≡ src.old }
    ensures reads { result ≢ Status.ReadFault }
    ensures writes { result ≢ Status.WriteFault }
{
    run(alloc, words, src, out)
}

/// The top call over a source and a sink in memory: where no call is due to fail, it answers no read fault, and no
/// write fault while room is left.
pub fn run_in_memory(
    alloc: Global,
    words: &[String],
    src: &mut MemSource,
    out: &mut MemSink,
) -> Status
    // Each status tells what the input is and what was written, also at a fault.
    ensures says { (command : Command) → AskFor command (map (λ w. string_bytes w) words.now)
        → (written : List ℕ) × (out.new.got ≡ out.old.got ++ written)
        × (promises_of command).says result (Some src.new.left) src.old.left written }

    ensures words { (result ≡ Status.Words)
        ↔ ((command : Command) → AskFor command (map (λ w. string_bytes w) words.now) → ⊥) }
    ensures untouched { result ≡ Status.Words → (src.new ≡ src.old) × (out.new ≡ out.old) }
    ensures ended { (command : Command) → AskFor command (map (λ w. string_bytes w) words.now)
        → IsTrue (promises_of command).reads
        → IsTrue (is_done result) → src.new.left ≡ [] }
    ensures unread { (command : Command) → AskFor command (map (λ w. string_bytes w) words.now)
        → (promises_of command).reads ≡ false
        → src.new ≡ src.old }

    // No fault is told where no call is due to fail, of the sink while room is left.
    ensures reads { src.old.fails ≡ [] → result ≢ Status.ReadFault }
    ensures writes { out.old.fails ≡ [] → result ≡ Status.WriteFault
        → length out.new.got ≡ out.new.room }

    // Then each input that is fine is done, if memory and room last.
    ensures complete { (command : Command) → AskFor command (map (λ w. string_bytes w) words.now)
        → (promises_of command).fine src.old.left
        → src.old.fails ≡ [] → out.old.fails ≡ []
        → IsTrue (is_done result) ⊎ (result ≡ Status.Memory)
        ⊎ ((result ≡ Status.WriteFault) × (length out.new.got ≡ out.new.room)) }

    // A fault is told only where its count rose in this call, and each that came is told; only that of a read gives way
    // to that of the flush behind it.
    ensures read_fault { result ≡ Status.ReadFault → Rose src.old.faults src.new.faults }
    ensures write_fault { result ≡ Status.WriteFault → Rose out.old.faults out.new.faults }
    ensures read_told { result ≢ Status.ReadFault → result ≢ Status.WriteFault
        → src.new.faults ≡ src.old.faults }
    ensures write_told { result ≢ Status.WriteFault → out.new.faults ≡ out.old.faults }
    ensures read_says { (command : Command) → AskFor command (map (λ w. string_bytes w) words.now)
        → src.new.faults ≢ src.old.faults
        → (written : List ℕ) × (out.new.got ≡ out.old.got ++ written)
        × (promises_of command).says Status.ReadFault (Some src.new.left) src.old.left written }
    ensures source_later { src.old.faults ≤ src.new.faults }
    ensures sink_later { out.old.faults ≤ out.new.faults }
{
    run(alloc, words, src, out)
}
