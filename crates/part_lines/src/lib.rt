// The lines of a bundle between its dossiers: `crew parts 1`, and `parts` with the number of parts.
#![tactic(auto)]

ghost use Rattle.std.specs.Prelude.{◌≡◌, ◌≤◌, MatchResult};
ghost use Rattle.crew_terms.specs.declared.TheConstants.{MOST_TASKS};
ghost use Rattle.part_lines.specs.Faults.{IsCountFault, IsFirstFault};
ghost use Rattle.part_texts.specs.Lines.{count_words, first_words};

use crew_terms::MOST_TASKS;
use field_table::{Field, Kind, LineWords, Words};
use line_in::LineFault;
use line_in::numbers::read_in;
use line_in::shape::{has_shape, is_word};

/// How many parts there are: at most as many as an instance may have tasks.
const COUNT: Field = Field {
    low: 0,
    high: MOST_TASKS as i64,
    kind: Kind::Number,
};

/// Reads the first line of a bundle, `crew parts 1`, or tells its fault.
pub fn read_first(words: &LineWords<'_>) -> Result<(), LineFault>
    ensures { MatchResult result (λ _. words.now ≡ first_words) (IsFirstFault words.now) }
{
    if !has_shape(words, b"crew", 2) {
        return Err(LineFault::Shape);
    }
    if !is_word(words, 1, b"parts") {
        return Err(LineFault::Shape);
    }
    if !is_word(words, 2, b"1") {
        return Err(LineFault::Shape);
    }
    Ok(())
}

/// Reads the line `parts`, and gives how many parts there are, or tells its first fault.
pub fn read_count(words: &LineWords<'_>) -> Result<u32, LineFault>
    ensures { MatchResult result (λ k. (k ≤ MOST_TASKS) × (words.now ≡ count_words k))
        (IsCountFault words.now) }
{
    if !has_shape(words, b"parts", 1) {
        return Err(LineFault::Shape);
    }
    let count = read_in(words, 1, &COUNT)?;
    Ok(count as u32)
}
