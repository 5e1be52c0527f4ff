// Where bytes go.
ghost use Rattle.std.specs.Prelude.{◌≡◌, ◌≤◌, ◌<◌, ◌+◌, ◌-◌, ◌↔◌, ◌++◌, ⊤, [], List, ℕ, Option, Some, None, Ok, length, take, min, IfOk, OnOk, OnErr, IsOk, IsErr};
ghost use Rattle.std.specs.Io.KnownBytes.{WriteAppends, Keeps};
ghost use Rattle.std.specs.Io.Buffered.{writer_buffer, writer_contents};
ghost use Rattle.crew_io.specs.Io.{Rose, Took, one_more};
ghost use Rattle.crew_io.specs.Memory.{FailsNext, IsRefused, store_failed, store_took};
ghost use Rattle.crew_io.specs.Std.{writer_of, write_faults};

use crate::script::Script;
use crate::source::Failed;
use std::alloc::{AllocError, Global};
use std::io::{BufWriter, Write};
use std::marker::Model;

/// A write has failed, and was counted.
#[derive(Clone, Copy, Debug, PartialEq, Eq)]
pub struct WriteFault;

/// Where bytes go.
pub trait Sink {
    /// The bytes that were taken, where it tells them.
    ghost got: { Self → Option (List ℕ) };

    /// How often a write or a flush has failed.
    ghost faults: { Self → ℕ };

    /// The bytes that were taken and are not passed on yet.
    ghost held: { Self → List ℕ };

    /// Its calls fail only where its room is used up.
    ghost steady: { Self → Type 0 };

    /// Its room is used up, and stays so.
    ghost full: { Self → Type 0 };

    /// Takes the front of the piece, and says how many bytes: at least one, if the piece is not
    /// empty. A write that fails takes nothing, and is counted.
    fn write(&mut self, piece: &[u8]) -> Result<usize, Failed>
        ensures fits { IfOk result (λ n. n ≤ length piece.now) }
        ensures some { IfOk result (λ n. 0 < length piece.now → 0 < n) }
        ensures took { IfOk result (λ n. Took (got self.old) (got self.new) n piece.now) }
        ensures nothing { OnErr result (got self.new ≡ got self.old) }
        ensures later { faults self.old ≤ faults self.new }
        ensures cause { IsErr result → Rose (faults self.old) (faults self.new) }
        ensures uncounted { OnOk result (faults self.new ≡ faults self.old) }
        ensures steady { steady self.old → steady self.new × (IsErr result → full self.new) }
        ensures full { full self.old → full self.new };

    /// Passes on what the sink holds back. A flush that fails is counted.
    fn flush(&mut self) -> Result<(), Failed>
        ensures passed { OnOk result (held self.new ≡ []) }
        ensures same { got self.new ≡ got self.old }
        ensures later { faults self.old ≤ faults self.new }
        ensures cause { IsErr result → Rose (faults self.old) (faults self.new) }
        ensures uncounted { OnOk result (faults self.new ≡ faults self.old) }
        ensures steady { steady self.old → IsOk result × steady self.new }
        ensures full { full self.old → full self.new };
}

/// A sink in memory, which takes at most a piece in a write. Exactly the calls whose numbers, from
/// 1, stand in `fails` fail, and writes that meet a full room.
#[derive(Drop)]
pub struct MemSink {
    bytes: Vec<u8>,
    len: usize,
    piece: usize,
    script: Script,
}

impl Model for MemSink {
    ghost use Rattle.crew_io.specs.Memory.{Store};

    ghost Value = { Store };

    ghost use Rattle.crew_io.specs.KeptSink.{store_of, IsStore};

    ghost view = { store_of };

    ghost invariant = { IsStore };
}

/// Writes the piece into the room, from `at` on.
fn put_at(room: &mut [u8], at: usize, piece: &[u8])
    requires { at + length piece.now ≤ length room.old }
    ensures { take (at + length piece.now) room.new ≡ take at room.old ++ piece.now }
{
    room[at..at + piece.len()].copy_from_slice(piece);
}

impl MemSink {
    /// An empty sink with memory for `room` bytes.
    pub fn new(
        alloc: Global,
        room: usize,
        piece: usize,
        fails: Vec<u64>,
    ) -> Result<MemSink, AllocError>
        requires { 1 ≤ piece }
        ensures value { IfOk result (λ s. s ≡ record {
          got = [];
          room = room;
          piece = piece;
          fails = fails.items;
          calls = 0;
          faults = 0;
        }) }
        ensures got { IfOk result (λ s. ⟦<MemSink as Sink>⟧.got s ≡ Some []) }
        ensures faults { IfOk result (λ s. ⟦<MemSink as Sink>⟧.faults s ≡ 0) }
    {
        Ok(MemSink {
            bytes: vec![in alloc; 0u8; room]?,
            len: 0,
            piece,
            script: Script::new(fails),
        })
    }

    /// The bytes that were taken.
    pub fn got(&self) -> &[u8]
        ensures { result.now ≡ self.now.got }
    {
        &self.bytes[..self.len]
    }

    /// How many bytes a write of this length takes, if it does not fail.
    fn share(&self, len: usize) -> usize
        ensures { result ≡ min (min len self.now.piece) (self.now.room - length self.now.got) }
    {
        len.min(self.piece).min(self.bytes.len() - self.len)
    }
}

impl Sink for MemSink {
    ghost got = { λ s. Some s.got };

    ghost faults = { λ s. s.faults };

    ghost held = { λ _. [] };

    ghost steady = { λ s. s.fails ≡ [] };

    ghost full = { λ s. length s.got ≡ s.room };

    fn write(&mut self, piece: &[u8]) -> Result<usize, Failed>
        ensures fits { IfOk result (λ n. n ≤ length piece.now) }
        ensures some { IfOk result (λ n. 0 < length piece.now → 0 < n) }
        ensures took { IfOk result (λ n. Took (Some self.old.got) (Some self.new.got) n piece.now) }
        ensures nothing { OnErr result (Some self.new.got ≡ Some self.old.got) }
        ensures later { self.old.faults ≤ self.new.faults }
        ensures cause { IsErr result → Rose self.old.faults self.new.faults }
        ensures uncounted { OnOk result (self.new.faults ≡ self.old.faults) }
        ensures steady { self.old.fails ≡ [] →
            (self.new.fails ≡ []) × (IsErr result → length self.new.got ≡ self.new.room) }
        ensures full { length self.old.got ≡ self.old.room → length self.new.got ≡ self.new.room }

        // It fails exactly where the call is due to fail or the room is full, and takes as much as it may.
        ensures due { IsErr result ↔ IsRefused self.old piece.now }
        ensures count { IfOk result (λ n. n ≡
            min (min (length piece.now) self.old.piece) (self.old.room - length self.old.got)) }
        ensures ok { IfOk result (λ n. self.new ≡ store_took self.old (take n piece.now)) }
        ensures failed { OnErr result (self.new ≡ store_failed self.old) }
    {
        let n = self.share(piece.len());
        if self.script.call() || (n == 0 && !piece.is_empty()) {
            self.script.fail();
            return Err(Failed);
        }
        put_at(&mut self.bytes, self.len, &piece[..n]);
        self.len += n;
        Ok(n)
    }

    fn flush(&mut self) -> Result<(), Failed>
        ensures same { Some self.new.got ≡ Some self.old.got }
        ensures later { self.old.faults ≤ self.new.faults }
        ensures cause { IsErr result → Rose self.old.faults self.new.faults }
        ensures uncounted { OnOk result (self.new.faults ≡ self.old.faults) }
        ensures steady { self.old.fails ≡ [] → IsOk result × (self.new.fails ≡ []) }
        ensures full { length self.old.got ≡ self.old.room → length self.new.got ≡ self.new.room }

        // It fails exactly where the call is due to fail.
        ensures due { IsErr result ↔ FailsNext self.old.fails self.old.calls }
        ensures ok { OnOk result (self.new ≡ store_took self.old []) }
        ensures failed { OnErr result (self.new ≡ store_failed self.old) }
    {
        if self.script.call() {
            self.script.fail();
            return Err(Failed);
        }
        Ok(())
    }
}

/// A sink that takes each piece whole, keeps none and never fails.
#[derive(Clone, Copy, Debug)]
pub struct SteadySink;

impl SteadySink {
    /// A sink of this kind; each is like every other.
    pub fn new() -> SteadySink
        ensures got { ⟦<SteadySink as Sink>⟧.got result ≡ None }
        ensures faults { ⟦<SteadySink as Sink>⟧.faults result ≡ 0 }
    {
        SteadySink
    }
}

impl Sink for SteadySink {
    ghost got = { λ _. None };

    ghost faults = { λ _. 0 };

    ghost held = { λ _. [] };

    ghost steady = { λ _. ⊤ };

    ghost full = { λ _. ⊥ };

    fn write(&mut self, piece: &[u8]) -> Result<usize, Failed>
        ensures { result ≡ Ok (length piece.now) }
    {
        Ok(piece.len())
    }

    fn flush(&mut self) -> Result<(), Failed>
        ensures { result ≡ Ok tt }
    {
        Ok(())
    }
}

/// A sink over one of std's writers behind a buffer, which tells nothing of its bytes but those that it
/// holds back. Each of the writer's errors is a fault, and each write that takes nothing of a piece that is
/// not empty. Faults are counted.
#[derive(Drop)]
pub struct StdSink<W: Write + Drop> {
    inner: BufWriter<W>,
    failed: u64,
}

impl<W: Write + Drop> StdSink<W> {
    /// A sink over this writer, with no faults so far.
    pub fn new(inner: BufWriter<W>) -> StdSink<W>
        ensures writer { writer_of result ≡ inner }
        ensures got { ⟦<StdSink<W> as Sink>⟧.got result ≡ None }
        ensures faults { ⟦<StdSink<W> as Sink>⟧.faults result ≡ 0 }
    {
        StdSink { inner, failed: 0 }
    }

    /// Counts a fault.
    fn fail(&mut self) -> Failed
        ensures counted { write_faults self.new ≡ one_more (write_faults self.old) }
        ensures later { write_faults self.old ≤ write_faults self.new }
        ensures writer { writer_of self.new ≡ writer_of self.old }
    {
        self.failed = self.failed.saturating_add(1);
        Failed
    }
}

impl<W: Write + Drop> Sink for StdSink<W> {
    ghost got = { λ _. None };

    ghost faults = { λ s. write_faults s };

    ghost held = { λ s. writer_buffer (writer_of s) };

    ghost steady = { λ _. ⊥ };

    ghost full = { λ _. ⊥ };

    fn write(&mut self, piece: &[u8]) -> Result<usize, Failed>
        ensures fits { IfOk result (λ n. n ≤ length piece.now) }
        ensures some { IfOk result (λ n. 0 < length piece.now → 0 < n) }
        ensures took { IfOk result (λ n. Took None None n piece.now) }
        ensures later { write_faults self.old ≤ write_faults self.new }
        ensures cause { IsErr result → Rose (write_faults self.old) (write_faults self.new) }

        // An Ok leaves the count, an Err adds one, and what is taken is passed on. That Err comes exactly where
        // the writer's call failed, or took nothing of a piece that is not empty, shows in the code and in
        // tests: std does not say when its calls fail.
        ensures uncounted { OnOk result (write_faults self.new ≡ write_faults self.old) }
        ensures counted { OnErr result (write_faults self.new ≡ one_more (write_faults self.old)) }
        ensures bytes { WriteAppends (writer_contents W.contents (writer_of self.old))
            (writer_contents W.contents (writer_of self.new)) result piece.now }
    {
        match self.inner.write(piece) {
            Ok(0) if !piece.is_empty() => Err(self.fail()),
            Ok(n) => Ok(n),
            Err(_) => Err(self.fail()),
        }
    }

    fn flush(&mut self) -> Result<(), Failed>
        ensures passed { OnOk result (writer_buffer (writer_of self.new) ≡ []) }
        ensures later { write_faults self.old ≤ write_faults self.new }
        ensures cause { IsErr result → Rose (write_faults self.old) (write_faults self.new) }

        // An Ok leaves the count, and an Err adds one. That Err comes exactly where the writer's call failed
        // shows in the code and in tests.
        ensures uncounted { OnOk result (write_faults self.new ≡ write_faults self.old) }
        ensures counted { OnErr result (write_faults self.new ≡ one_more (write_faults self.old)) }
        ensures bytes { Keeps (writer_contents W.contents (writer_of self.old))
            (writer_contents W.contents (writer_of self.new)) }
    {
        match self.inner.flush() {
            Ok(()) => Ok(()),
            Err(_) => Err(self.fail()),
        }
    }
}
