// Fields, and rows of them: which words they accept, and as what numbers.
ghost use Rattle.std.specs.Prelude.{◌≡◌, ◌<◌, [], ℤ, List, Ok, length, map, slice_index_or, MatchOption, MatchResult};
ghost use Rattle.field_table.specs.Fields.{Spells, Accepts, Refuses, ReadsWord, AreValues, ReadsRow};
ghost use Rattle.field_table.specs.Schemas.{FindsFirst};

use crate::clocks::read_clock;
use crate::cuts::Words;
use crew_terms::Name;

/// What a word of a field spells.
#[derive(Clone, Copy, Debug, PartialEq, Eq)]
pub enum Kind {
    /// A number, by its canonical decimal.
    Number,
    /// Minutes, as a clock shows them.
    Clock,
    /// A name, whose number is its length.
    Name,
}

/// Why words are refused.
#[derive(Clone, Copy, Debug, PartialEq, Eq)]
pub enum Cause {
    /// There are too few words.
    Count,
    /// The word spells nothing of its field's kind.
    Spelling,
    /// What the word spells is out of its field's range.
    Range,
}

/// A field: the least and the greatest number that it accepts, and its kind.
#[derive(Clone, Copy, Debug, PartialEq, Eq)]
pub struct Field {
    pub low: i64,
    pub high: i64,
    pub kind: Kind,
}

/// The place of a word that is refused, or the number of words where these are too few, and why.
#[derive(Clone, Copy, Debug, PartialEq, Eq)]
pub struct FieldFault {
    pub place: usize,
    pub cause: Cause,
}

/// The fields of the words after the first. The first word tells which row a line has: the caller looks at it, and
/// `read` does not.
#[derive(Clone, Copy)]
pub struct Row<const N: usize> {
    pub fields: [Field; N],
}

/// The first words of the rows of a format, in the order of its rows.
#[derive(Clone, Copy)]
pub struct Schema {
    pub keys: &'static [&'static str],
}

/// What the word at a place spells as a field of this kind.
#[inline(always)]
fn read_as<W: Words>(kind: Kind, words: &W, place: usize) -> Option<i64>
    requires { place < length (W.words words.now) }
    ensures { MatchOption result
        ((z : ℤ) → Spells kind (slice_index_or (W.words words.now) place []) z → ⊥)
        (λ z. Spells kind (slice_index_or (W.words words.now) place []) z) }
{
    match kind {
        Kind::Number => words.number(place),
        Kind::Clock => read_clock(words.word(place)),
        Kind::Name => {
            let name = Name::read(words.word(place))?;
            Some(name.bytes().len() as i64)
        }
    }
}

impl Field {
    /// The number that the field accepts the word at a place as, or why it refuses it.
    #[inline(always)]
    fn read<W: Words>(&self, words: &W, place: usize) -> Result<i64, Cause>
        requires { place < length (W.words words.now) }
        ensures { MatchResult result
            (λ z. Accepts self.now (slice_index_or (W.words words.now) place []) z)
            (λ cause. Refuses self.now (slice_index_or (W.words words.now) place []) cause) }
    {
        let Some(value) = read_as(self.kind, words, place) else {
            return Err(Cause::Spelling);
        };
        if value < self.low || value > self.high {
            return Err(Cause::Range);
        }
        Ok(value)
    }
}

/// The number of the word at a place. Spelling exactly where the word spells nothing of the field's kind; Range
/// exactly where it spells a number that is out of the field's range.
#[inline(always)]
pub fn read_at<W: Words>(words: &W, place: usize, field: &Field) -> Result<i64, FieldFault>
    requires { place < length (W.words words.now) }
    ensures exact { ReadsWord field.now (slice_index_or (W.words words.now) place []) place result }
    ensures back { (z : ℤ) → Accepts field.now (slice_index_or (W.words words.now) place []) z →
        result ≡ Ok z }
{
    match field.read(words, place) {
        Ok(value) => Ok(value),
        Err(cause) => Err(FieldFault { place, cause }),
    }
}

impl<const N: usize> Row<N> {
    /// The numbers of the words after the first, one for each field; further words are not looked at. Count, with
    /// the number of words, exactly where there are fewer than N + 1 words; else Spelling or Range exactly as the
    /// first of these words has it that its field refuses. It takes no memory.
    // A row is a constant where it is read; inlined, its ranges are too.
    #[inline(always)]
    pub fn read<W: Words>(&self, words: &W) -> Result<[i64; N], FieldFault>
        ensures exact { ReadsRow self.now.fields (W.words words.now) result }
        ensures back { (values : List ℤ) → AreValues self.now.fields (W.words words.now) values →
            result ≡ Ok values }
    {
        let count = words.count();
        if count <= N {
            return Err(FieldFault {
                place: count,
                cause: Cause::Count,
            });
        }
        let mut values = [0i64; N];
        for (i, field) in self.fields.iter().enumerate() {
            values[i] = read_at(words, i + 1, field)?;
        }
        Ok(values)
    }
}

impl Schema {
    /// The place of a key, the first where it stands more than once; None exactly where it is not there.
    pub fn find(&self, key: &[u8]) -> Option<usize>
        ensures { FindsFirst (map (λ k. k.now) self.now.keys.now) key.now result }
    {
        for (i, own) in self.keys.iter().enumerate() {
            if own.as_bytes() == key {
                return Some(i);
            }
        }
        None
    }
}

/// Reads the words after the first by a row of fields, and gives each number its field's name. It does not look at the
/// first word. With a `MINUTE` that is a constant field, `fields!(&words, task: Number(0, last), start: MINUTE)` makes
/// the variables `task` and `start`, both `i64`. A fault is returned from the function by `?`, or, after
/// `; else fault =>`, as the error that is written there.
#[macro_export]
macro_rules! fields {
    ($words:expr, $($name:ident: $kind:ident $(($low:expr, $high:expr))?),+ $(,)?) => {
        let [$($name),+] = $crate::row!($($kind $(($low, $high))?),+).read($words)?;
    };
    (
        $words:expr, $($name:ident: $kind:ident $(($low:expr, $high:expr))?),+ $(,)?;
        else $fault:ident => $answer:expr
    ) => {
        let [$($name),+] = match $crate::row!($($kind $(($low, $high))?),+).read($words) {
            Ok(values) => values,
            Err($fault) => return Err($answer),
        };
    };
}

/// A row: `row!(Number(0, last), MINUTE)`.
#[macro_export]
macro_rules! row {
    ($($kind:ident $(($low:expr, $high:expr))?),+ $(,)?) => {
        $crate::Row {
            fields: [$($crate::field!($kind $(($low, $high))?)),+],
        }
    };
}

/// A field: `field!(Number(0, last))`, or a constant's name.
#[macro_export]
macro_rules! field {
    ($kind:ident($low:expr, $high:expr)) => {
        $crate::Field {
            low: $low,
            high: $high,
            kind: $crate::Kind::$kind,
        }
    };
    ($field:ident) => {
        $field
    };
}
