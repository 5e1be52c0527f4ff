// The fields of a record, as words.
ghost use Rattle.std.specs.Prelude.{◌≡◌};
ghost use Rattle.csv.specs.Records.{fields_of};

use csv::ByteRecord;
use field_table::{Words, read_number};
use std::marker::Model;

/// The fields of a record that csv gives, as words; it borrows the record.
#[derive(Drop)]
pub struct RecordWords<'a> {
    row: &'a ByteRecord,
}

impl<'a> Model for RecordWords<'a> {
    ghost use Rattle.std.specs.Prelude.{List, ℕ};

    ghost Value = { List (List ℕ) };

    ghost use Rattle.csv.specs.Records.{fields_of};

    ghost view = { λ w. fields_of w.row.now };
}

impl<'a> RecordWords<'a> {
    /// The fields of this record.
    pub fn new(row: &'a ByteRecord) -> RecordWords<'a>
        ensures { result ≡ fields_of row.now }
    {
        RecordWords { row }
    }
}

impl<'a> Words for RecordWords<'a> {
    ghost words = { λ w. w };

    fn count(&self) -> usize {
        self.row.len()
    }

    fn word(&self, n: usize) -> &[u8] {
        self.row.get(n).unwrap()
    }

    fn number(&self, n: usize) -> Option<i64> {
        read_number(self.word(n))
    }
}
