// A law: a day's text has one reading.
ghost use Rattle.std.specs.Prelude.{◌≡◌, List, ℕ, Option, Result};
ghost use Rattle.crew_terms.specs.Words.{Words};
ghost use Rattle.day_terms.specs.Days.{ReadsRecord, IsDayOf};
ghost use Rattle.day_terms.specs.declared.Entry.{Entry};
ghost use Rattle.day_terms.specs.declared.Refused.{Refused};
ghost use Rattle.day_terms.specs.declared.DayCause.{DayCause};

use field_table::one_answer;

/// A law: a record says one thing in itself, and a text has one list of entries and one stop.
pub fn one_reading()
    ensures of_record { (fields : Words) (r s : Result Entry DayCause) → ReadsRecord fields r →
        ReadsRecord fields s → r ≡ s }
    ensures of_day { (text : List ℕ) (entries others : List Entry) (stop other : Option Refused)
        → IsDayOf text entries stop → IsDayOf text others other →
        (entries ≡ others) × (stop ≡ other) }
{
    one_answer();
}
