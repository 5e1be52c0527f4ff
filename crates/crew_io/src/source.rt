// Where bytes come from.
ghost use Rattle.std.specs.Prelude.{◌≡◌, ◌≤◌, ◌<◌, ◌↔◌, ◌++◌, ⊤, [], List, ℕ, Option, Some, None, Ok, length, take, drop, min, IfOk, OnOk, OnErr, IsOk, IsErr};
ghost use Rattle.std.specs.Io.KnownBytes.{ReadConsumes};
ghost use Rattle.crew_io.specs.Io.{Rose, Gave, HasEnded, one_more};
ghost use Rattle.crew_io.specs.Memory.{FailsNext, feed_failed, feed_gave};
ghost use Rattle.crew_io.specs.Std.{reader_of, read_faults};

use crate::script::Script;
use std::io::Read;
use std::marker::Model;

/// A read, a write or a flush has failed, and was counted.
#[derive(Clone, Copy, Debug, PartialEq, Eq)]
pub struct Failed;

/// Where bytes come from.
pub trait Source {
    /// The bytes to come, where it tells them.
    ghost left: { Self → Option (List ℕ) };

    /// How often a read has failed.
    ghost faults: { Self → ℕ };

    /// None of its reads is going to fail.
    ghost steady: { Self → Type 0 };

    /// Puts the next bytes at the front of the buffer, and says how many: none only at the end, or
    /// where the buffer is empty. A read that fails takes nothing, and is counted; what the buffer then
    /// holds is not said.
    fn read(&mut self, buf: &mut [u8]) -> Result<usize, Failed>
        ensures fits { IfOk result (λ n. n ≤ length buf.old) }
        ensures gave { IfOk result (λ n. Gave (left self.old) (left self.new) n buf.old buf.new) }
        ensures end { result ≡ Ok 0 → 0 < length buf.old → HasEnded (left self.old) }
        ensures nothing { OnErr result (left self.new ≡ left self.old) }
        ensures later { faults self.old ≤ faults self.new }
        ensures cause { IsErr result → Rose (faults self.old) (faults self.new) }
        ensures uncounted { OnOk result (faults self.new ≡ faults self.old) }
        ensures steady { steady self.old → IsOk result × steady self.new };
}

/// Copies the front of the bytes, at most a piece of them, to the front of the buffer.
fn copy_front(bytes: &[u8], buf: &mut [u8], piece: usize) -> usize
    ensures count { result ≡ min (min (length bytes.now) (length buf.old)) piece }
    ensures copied { buf.new ≡ take result bytes.now ++ drop result buf.old }
{
    let n = bytes.len().min(buf.len()).min(piece);
    buf[..n].copy_from_slice(&bytes[..n]);
    n
}

/// A source over bytes in memory, which gives at most a piece of them in a read. Exactly the calls
/// whose numbers, from 1, stand in `fails` fail.
#[derive(Drop)]
pub struct MemSource {
    bytes: Vec<u8>,
    at: usize,
    piece: usize,
    script: Script,
}

impl Model for MemSource {
    ghost use Rattle.crew_io.specs.Memory.{Feed};

    ghost Value = { Feed };

    ghost use Rattle.crew_io.specs.KeptSource.{feed_of, IsFeed};

    ghost view = { feed_of };

    ghost invariant = { IsFeed };
}

impl MemSource {
    /// A source of these bytes, with no calls so far. It gives at most `piece` of them in a read.
    pub fn new(bytes: Vec<u8>, piece: usize, fails: Vec<u64>) -> MemSource
        requires { 1 ≤ piece }
        ensures value { result ≡ record {
          left = bytes.items;
          piece = piece;
          fails = fails.items;
          calls = 0;
          faults = 0;
        } }
        ensures left { ⟦<MemSource as Source>⟧.left result ≡ Some bytes.items }
        ensures faults { ⟦<MemSource as Source>⟧.faults result ≡ 0 }
    {
        MemSource {
            bytes,
            at: 0,
            piece,
            script: Script::new(fails),
        }
    }
}

impl Source for MemSource {
    ghost left = { λ s. Some s.left };

    ghost faults = { λ s. s.faults };

    ghost steady = { λ s. s.fails ≡ [] };

    fn read(&mut self, buf: &mut [u8]) -> Result<usize, Failed>
        ensures fits { IfOk result (λ n. n ≤ length buf.old) }
        ensures gave { IfOk result
            (λ n. Gave (Some self.old.left) (Some self.new.left) n buf.old buf.new) }
        ensures end { result ≡ Ok 0 → 0 < length buf.old → HasEnded (Some self.old.left) }
        ensures nothing { OnErr result (Some self.new.left ≡ Some self.old.left) }
        ensures later { self.old.faults ≤ self.new.faults }
        ensures cause { IsErr result → Rose self.old.faults self.new.faults }
        ensures uncounted { OnOk result (self.new.faults ≡ self.old.faults) }
        ensures steady { self.old.fails ≡ [] → IsOk result × (self.new.fails ≡ []) }

        // It fails exactly where the call is due to fail, and gives as much as it may.
        ensures due { IsErr result ↔ FailsNext self.old.fails self.old.calls }
        ensures count { IfOk result
            (λ n. n ≡ min (min (length self.old.left) (length buf.old)) self.old.piece) }
        ensures ok { IfOk result (λ n. self.new ≡ feed_gave self.old n) }
        ensures failed { OnErr result (self.new ≡ feed_failed self.old) }
    {
        if self.script.call() {
            self.script.fail();
            return Err(Failed);
        }
        let n = copy_front(&self.bytes[self.at..], buf, self.piece);
        self.at += n;
        Ok(n)
    }
}

/// A source over bytes in memory that never fails.
#[derive(Drop)]
pub struct SteadySource {
    bytes: Vec<u8>,
    at: usize,
    piece: usize,
}

impl Model for SteadySource {
    ghost use Rattle.crew_io.specs.Memory.{SteadyFeed};

    ghost Value = { SteadyFeed };

    ghost use Rattle.crew_io.specs.KeptSteady.{steady_of, IsSteady};

    ghost view = { steady_of };

    ghost invariant = { IsSteady };
}

impl SteadySource {
    /// A source of these bytes, which gives at most `piece` of them in a read.
    pub fn new(bytes: Vec<u8>, piece: usize) -> SteadySource
        requires { 1 ≤ piece }
        ensures value { result ≡ record { left = bytes.items; piece = piece } }
        ensures left { ⟦<SteadySource as Source>⟧.left result ≡ Some bytes.items }
        ensures faults { ⟦<SteadySource as Source>⟧.faults result ≡ 0 }
    {
        SteadySource {
            bytes,
            at: 0,
            piece,
        }
    }
}

impl Source for SteadySource {
    ghost left = { λ s. Some s.left };

    ghost faults = { λ _. 0 };

    ghost steady = { λ _. ⊤ };

    fn read(&mut self, buf: &mut [u8]) -> Result<usize, Failed>
        ensures value { result ≡
            Ok (min (min (length self.old.left) (length buf.old)) self.old.piece) }
        ensures gave { IfOk result
            (λ n. Gave (Some self.old.left) (Some self.new.left) n buf.old buf.new) }
        ensures end { result ≡ Ok 0 → 0 < length buf.old → HasEnded (Some self.old.left) }
        ensures piece { self.new.piece ≡ self.old.piece }
    {
        let n = copy_front(&self.bytes[self.at..], buf, self.piece);
        self.at += n;
        Ok(n)
    }
}

/// A source over one of std's readers, which tells nothing of its bytes. Each of the reader's errors
/// is a fault, and faults are counted.
#[derive(Drop)]
pub struct StdSource<R> {
    inner: R,
    failed: u64,
}

impl<R: Read> StdSource<R> {
    /// A source over this reader, with no faults so far.
    pub fn new(inner: R) -> StdSource<R>
        ensures reader { reader_of result ≡ inner }
        ensures left { ⟦<StdSource<R> as Source>⟧.left result ≡ None }
        ensures faults { ⟦<StdSource<R> as Source>⟧.faults result ≡ 0 }
    {
        StdSource { inner, failed: 0 }
    }
}

impl<R: Read> Source for StdSource<R> {
    ghost left = { λ _. None };

    ghost faults = { λ s. read_faults s };

    ghost steady = { λ _. ⊥ };

    fn read(&mut self, buf: &mut [u8]) -> Result<usize, Failed>
        ensures fits { IfOk result (λ n. n ≤ length buf.old) }
        ensures gave { IfOk result (λ n. Gave None None n buf.old buf.new) }
        ensures end { result ≡ Ok 0 → 0 < length buf.old → HasEnded None }
        ensures later { read_faults self.old ≤ read_faults self.new }
        ensures cause { IsErr result → Rose (read_faults self.old) (read_faults self.new) }

        // An Ok leaves the count, an Err adds one, and what is given is the reader's. That Err comes exactly
        // where the reader's call failed shows in the code and in tests: std does not say when its calls fail.
        ensures uncounted { OnOk result (read_faults self.new ≡ read_faults self.old) }
        ensures counted { OnErr result (read_faults self.new ≡ one_more (read_faults self.old)) }
        ensures bytes { ReadConsumes (R.remaining (reader_of self.old))
            (R.remaining (reader_of self.new)) result buf.new }
    {
        match self.inner.read(buf) {
            Ok(n) => Ok(n),
            Err(_) => {
                self.failed = self.failed.saturating_add(1);
                Err(Failed)
            }
        }
    }
}
