// Lists of skills.
ghost use Rattle.std.specs.Prelude.{◌≡◌, ◌<◌, ◌↔◌, ◌⊎◌, ◌≤ℤ◌, ◌<ℤ◌, ℕ, pos, length, MatchResult};
ghost use Rattle.std.specs.Int.{bit_at};
ghost use Rattle.day_terms.specs.Forms.{Skilled};
ghost use Rattle.day_terms.specs.Fields.{ListsSet, IsBad};
ghost use Rattle.day_terms.specs.Records.{field_of};
ghost use Rattle.day_records.specs.Rows.{ReadsSkills};

use crate::words::RecordWords;
use crew_terms::SKILLS;
use field_table::{Cause, FieldFault, Words, read_number};

/// The set with one skill more.
fn with_skill(set: u64, skill: i64) -> u64
    requires low { pos 0 ≤ℤ skill }
    requires high { skill <ℤ pos SKILLS }
    ensures { (n : ℕ) → (bit_at result n ≡ 1) ↔ ((pos n ≡ skill) ⊎ (bit_at set n ≡ 1)) }
{
    set | 1 << skill as u32
}

/// The set of the skills that a field lists, in any order. Spelling exactly where a word of it is no
/// number; else Range exactly where one is no skill.
fn skill_set(field: &[u8]) -> Result<u64, Cause>
    ensures { MatchResult result (ListsSet field.now) (IsBad Skilled field.now) }
{
    if field.is_empty() {
        return Ok(0);
    }
    let mut set = 0;
    let mut known = true;
    for word in field.split(|b| *b == b' ') {
        let Some(skill) = read_number(word) else {
            return Err(Cause::Spelling);
        };
        if skill < 0 || skill >= SKILLS as i64 {
            known = false;
            continue;
        }
        set = with_skill(set, skill);
    }
    if known { Ok(set) } else { Err(Cause::Range) }
}

/// The set of the skills that the field at this place lists.
pub(crate) fn read_skills(words: &RecordWords<'_>, place: usize) -> Result<u64, FieldFault>
    requires { place < length words.now }
    ensures { ReadsSkills (field_of words.now place) place result }
{
    match skill_set(words.word(place)) {
        Ok(set) => Ok(set),
        Err(cause) => Err(FieldFault { place, cause }),
    }
}
