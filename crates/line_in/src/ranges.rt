// The fields that several lines have.
ghost use Rattle.std.specs.Prelude.{◌≡◌, ◌<◌, [], length, slice_index_or, MatchResult};
ghost use Rattle.dossier_terms.specs.Ranges.{HasName};

use crate::faults::LineFault;
use crew_terms::{LAST_MINUTE, MOST_PRICE, Name};
use field_table::{Field, Kind, LineWords, Words};

/// A minute of the day, of today and tomorrow.
pub const MINUTE: Field = Field {
    low: 0,
    high: LAST_MINUTE as i64,
    kind: Kind::Number,
};

/// A price: at most 1,000,000 tasks, either way.
pub(crate) const PRICE: Field = Field {
    low: -(MOST_PRICE as i64),
    high: MOST_PRICE as i64,
    kind: Kind::Number,
};

/// A potential: any number of 64 bits.
pub const POTENTIAL: Field = Field {
    low: i64::MIN,
    high: i64::MAX,
    kind: Kind::Number,
};

/// Reads the name that stands after the first word.
pub fn read_name(words: &LineWords<'_>) -> Result<Name, LineFault>
    requires { 1 < length words.now }
    ensures { MatchResult result
        (λ name. HasName words.now × (slice_index_or words.now 1 [] ≡ name))
        (λ fault. (fault ≡ LineFault.Name) × (HasName words.now → ⊥)) }
{
    match Name::read(words.word(1)) {
        Some(name) => Ok(name),
        None => Err(LineFault::Name),
    }
}
