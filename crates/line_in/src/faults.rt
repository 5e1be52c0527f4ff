// The faults of the words of a line.
ghost use Rattle.std.specs.Prelude.{◌≡◌};
ghost use Rattle.line_in.specs.Faults.{reason_for};

use dossier_terms::Reason;

/// Why a line is none of the expected kind; the first fault of these that it has.
#[derive(Clone, Copy, Debug, PartialEq, Eq)]
pub enum LineFault {
    /// Another first word, a wrong number of words, or a word that must be a given one and isn't.
    Shape,
    /// A word that isn't the canonical decimal of a number in its range.
    Number,
    /// A misspelled name.
    Name,
}

impl LineFault {
    /// The reason for which a line with this fault is refused.
    pub fn reason(self) -> Reason
        ensures { result ≡ reason_for self }
    {
        match self {
            LineFault::Shape => Reason::Shape,
            LineFault::Number => Reason::Number,
            LineFault::Name => Reason::Name,
        }
    }
}
