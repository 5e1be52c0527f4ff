// One line before a dossier.
ghost use Rattle.std.specs.Prelude.{◌≡◌, ◌≢◌, ◌↔◌, All, IsTrue, MatchResult};
ghost use Rattle.dossier_terms.specs.Rules.{IsShape};
ghost use Rattle.late_lines.specs.Lines.{IsLateLine, IsLineFault, IsRead, IsWordFault, late_word, late_words};

use crew_terms::{MOST_TASKS, Name};
use delay_wave::LATEST_END;
use field_table::{Field, Kind, LineWords, Words};
use line_in::LineFault;
use line_in::numbers::read_in;
use line_in::ranges::read_name;
use line_in::shape::has_shape;

/// The most lines `late` before a dossier: one for each task that there may be.
pub const MOST_LATES: usize = MOST_TASKS;

/// The minute at which a task ends late.
const END: Field = Field {
    low: 0,
    high: LATEST_END as i64,
    kind: Kind::Number,
};

/// A line `late`: the task with this name ends late, not before this minute.
#[derive(Clone, Copy, Debug, PartialEq, Eq)]
pub struct LateLine {
    pub name: Name,
    pub end: u32,
}

/// A line before a dossier.
#[derive(Clone, Copy, Debug, PartialEq, Eq)]
pub enum FirstLine {
    /// A task ends late.
    Late(LateLine),
    /// A dossier comes next.
    Dossier,
}

/// Whether no line has the name.
fn is_new(before: &[LateLine], name: &Name) -> bool
    ensures { IsTrue result ↔ All (λ line. line.name ≢ name.now) before.now }
{
    before.iter().all(|line| line.name != *name)
}

/// Reads a line `late` with two words after the first, or tells its first fault.
fn read_late(words: &LineWords<'_>) -> Result<LateLine, LineFault>
    requires { IsShape late_word 2 words.now }
    ensures { MatchResult result (λ line. IsLateLine line × (words.now ≡ late_words line))
        (IsWordFault words.now) }
{
    let name = read_name(words)?;
    let end = read_in(words, 2, &END)?;
    Ok(LateLine {
        name,
        end: end as u32,
    })
}

/// Reads a line before the dossier, after these, or tells its first fault: Shape, where it is neither `dossier` nor `late`
/// with two words more, or one of these too many; Name for a misspelled name; Number for an end out of range; and Name for
/// the name of an earlier line.
pub fn read_first(words: LineWords<'_>, before: &[LateLine]) -> Result<FirstLine, LineFault>
    ensures { MatchResult result (IsRead before.now words.entry)
        (IsLineFault before.now words.entry) }
{
    if has_shape(&words, b"dossier", 0) {
        return Ok(FirstLine::Dossier);
    }
    if before.len() >= MOST_LATES || !has_shape(&words, b"late", 2) {
        return Err(LineFault::Shape);
    }
    let line = read_late(&words)?;
    if !is_new(before, &line.name) {
        return Err(LineFault::Name);
    }
    Ok(FirstLine::Late(line))
}
