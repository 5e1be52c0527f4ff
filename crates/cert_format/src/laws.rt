// Laws: a line has one answer, and a line with a fault is refused.
ghost use Rattle.std.specs.Prelude.{◌≡◌, Result};
ghost use Rattle.crew_terms.specs.Words.{Words};
ghost use Rattle.dossier_terms.specs.Reading.{Reading, No};
ghost use Rattle.dossier_terms.specs.Table.{Says};
ghost use Rattle.cert_format.specs.declared.kinds.Expect.{Expect};
ghost use Rattle.cert_format.specs.declared.kinds.LineKind.{LineKind};
ghost use Rattle.line_in.specs.declared.faults.LineFault.{LineFault};
ghost use Rattle.line_in.specs.Faults.{reason_for};
ghost use Rattle.cert_format.specs.Expected.{expect_of};
ghost use Rattle.cert_format.specs.Lines.{IsFaultOf, ReadsLine};
ghost use Rattle.cert_format.specs.Counts.{HasCounts};

/// A law: where a kind of line is due, a line has one answer.
pub fn line_has_one_answer()
    ensures { (expect : Expect) (words : Words) (a b : Result LineKind LineFault) → HasCounts expect
        → ReadsLine expect words a → ReadsLine expect words b → a ≡ b }
{}

/// A law: a line with a fault is refused by the table of lines, and the fault tells the reason.
pub fn fault_is_refused()
    ensures { (due : Reading) (words : Words) (fault : LineFault)
        → IsFaultOf (expect_of due) words fault → Says due words (No (reason_for fault)) }
{}
