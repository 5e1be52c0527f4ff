// A text in memory, read as a dossier.
ghost use Rattle.std.specs.Prelude.{◌≡◌, IfOk};
ghost use Rattle.cert_checker.specs.Checked.{IsEnded, IsWholeAt, verdict_of};
ghost use Rattle.dossier_terms.specs.Dossier.{Dossier, IsGood};
ghost use Rattle.dossier_terms.specs.Lines.{text_of};
ghost use Rattle.bundle_join.specs.Texts.{IsJudgedAs};

use crate::kept::copied;
use cert_checker::{Checker, Verdict};
use crew_io::lines::LineReader;
use crew_io::source::SteadySource;
use crew_terms::LONGEST_INPUT;
use dossier_commands::input::{Outcome, next_dossier};
use part_texts::one_dossier_first;
use std::alloc::{AllocError, Global};

/// So many bytes are given to the reader at once.
const PIECE: usize = 65_536;

/// A checker that has read the text of a dossier, and what it says of it.
#[derive(Drop)]
pub struct JudgedText {
    pub checker: Checker,
    pub verdict: Verdict,
}

/// Reads the text of a good dossier, which stands in memory. AllocError where memory is wanting, and where the text is none.
pub fn judge_text(alloc: Global, text: &[u8]) -> Result<JudgedText, AllocError>
    ensures ended { IfOk result (λ judged. IsEnded judged.checker.at) }
    ensures is { IfOk result (λ judged. (d : Dossier) → IsGood d → text.now ≡ text_of d → IsJudgedAs judged d) }
{
    one_dossier_first();
    let mut src = SteadySource::new(copied(alloc, text)?, PIECE);
    let mut reader = LineReader::open(alloc, LONGEST_INPUT)?;
    let mut checker = Checker::open(alloc)?;
    match next_dossier(&mut reader, &mut checker, &mut src)? {
        Outcome::Yes(verdict) => Ok(JudgedText { checker, verdict }),
        Outcome::End | Outcome::No { .. } | Outcome::ReadFault => Err(AllocError),
    }
}
