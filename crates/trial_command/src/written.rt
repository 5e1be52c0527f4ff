// A history of what was written.
ghost use Rattle.std.specs.Prelude.{◌≡◌, ◌++◌, [], List, ℕ};
ghost use Rattle.std.specs.Borrow.{ftrue};

use std::marker::Model;

/// The bytes that were written so far, which contracts alone read. It takes no memory, and its calls do nothing.
#[derive(Drop)]
pub(crate) struct Written {
    pub ghost bytes: { List ℕ },
}

impl Model for Written {
    ghost also_owns = { λ _. ftrue };
}

impl Written {
    /// No bytes.
    pub(crate) fn none() -> Written
        ensures { result.bytes ≡ [] }
    {
        Written {}
    }

    /// Adds a piece behind them.
    pub(crate) fn add(&mut self, _piece: &[u8])
        ensures { self.new.bytes ≡ self.old.bytes ++ _piece.now }
    {}
}
