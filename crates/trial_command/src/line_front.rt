// The front of a line that is written piece by piece.
ghost use Rattle.std.specs.Prelude.{◌≡◌, ◌≢◌, ◌≤◌, ◌+◌, ◌++◌, [], All, OnOk, OnErr, length};
ghost use Rattle.crew_terms.specs.Words.{IsLine};
ghost use Rattle.crew_terms.specs.declared.TheConstants.{LONGEST_LINE};

use crew_terms::LONGEST_LINE;
use std::alloc::{AllocError, Global};
use std::marker::Model;

/// The front of a line: bytes without an LF, as many as a line may have at most.
#[derive(Drop)]
pub(crate) struct LineFront {
    bytes: Vec<u8>,
}

impl Model for LineFront {
    ghost use Rattle.std.specs.Prelude.{List, ℕ};

    ghost Value = { List ℕ };

    ghost use Rattle.trial_command.specs.KeptFront.{bytes_of, IsFrontOfLine};

    ghost view = { bytes_of };

    ghost invariant = { IsFrontOfLine };
}

impl LineFront {
    /// No bytes.
    pub(crate) fn new(alloc: Global) -> LineFront
        ensures { result ≡ [] }
    {
        LineFront {
            bytes: Vec::new(alloc),
        }
    }

    /// The bytes.
    pub(crate) fn bytes(&self) -> &[u8]
        ensures value { result.now ≡ self.now }
        ensures line { IsLine result.now }
    {
        &self.bytes
    }

    /// How many more bytes the line may have.
    pub(crate) fn room(&self) -> usize
        ensures { result + length self.now ≡ LONGEST_LINE }
    {
        LONGEST_LINE - self.bytes.len()
    }

    /// Adds bytes without an LF, for which the line has room. AllocError for want of memory; then it stays as it was.
    pub(crate) fn add(&mut self, bytes: &[u8]) -> Result<(), AllocError>
        requires plain { All (λ b. b ≢ 10) bytes.now }
        requires room { length self.old + length bytes.now ≤ LONGEST_LINE }
        ensures ok { OnOk result (self.new ≡ self.old ++ bytes.now) }
        ensures err { OnErr result (self.new ≡ self.old) }
    {
        self.bytes.extend_from_slice(bytes)
    }

    /// Lets the bytes go.
    pub(crate) fn clear(&mut self)
        ensures { self.new ≡ [] }
    {
        self.bytes.clear();
    }
}
