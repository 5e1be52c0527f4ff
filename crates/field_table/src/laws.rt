// Laws: words have one reading.
ghost use Rattle.std.specs.Prelude.{◌≡◌, List, ℕ, ℤ, Result};
ghost use Rattle.crew_terms.specs.Words.{Words};
ghost use Rattle.field_table.specs.Fields.{Spells, ReadsWord, ReadsRow};
ghost use Rattle.field_table.specs.declared.fields.Kind.{Kind};
ghost use Rattle.field_table.specs.declared.fields.Field.{Field};
ghost use Rattle.field_table.specs.declared.fields.FieldFault.{FieldFault};

/// A law: a word spells at most one number for a kind of field, and reading by a field or by a row has one answer.
pub fn one_answer()
    ensures spells { (kind : Kind) (word : List ℕ) (y z : ℤ) → Spells kind word y →
        Spells kind word z → y ≡ z }
    ensures word { (field : Field) (word : List ℕ) (place : ℕ) (r s : Result ℤ FieldFault)
        → ReadsWord field word place r → ReadsWord field word place s → r ≡ s }
    ensures row { (fields : List Field) (words : Words) (r s : Result (List ℤ) FieldFault)
        → ReadsRow fields words r → ReadsRow fields words s → r ≡ s }
{}
