// The numbers at the end of a line, as the sets and lists that they say.
ghost use Rattle.std.specs.Prelude.{◌≡◌, ◌<◌, ◌+◌, pos, length, slice_index_or, MatchOption, IfOk};
ghost use Rattle.std.specs.List.Sorted.{IsStrictlyIncreasing};
ghost use Rattle.crew_terms.specs.declared.TheConstants.{LAST_MINUTE, MOST_TEAMS, SKILLS};
ghost use Rattle.dossier_terms.specs.Dossier.{mask_of};
ghost use Rattle.head_check.specs.Numbers.{AreBelow, naturals};

use crew_terms::MOST_TEAMS_PER_TASK;
use line_in::LineNumbers;
use smallvec::SmallVec;
use std::alloc::{AllocError, Global};

/// The number at a place, which is a minute, a skill or a team.
pub fn number_at(numbers: &LineNumbers<'_>, n: usize) -> u32
    requires place { n < length numbers.now }
    requires range { AreBelow (LAST_MINUTE + 1) numbers.now }
    ensures { slice_index_or numbers.now n (pos 0) ≡ pos result }
{
    numbers.get(n) as u32
}

/// The set of the skills that are listed, a bit for each; None exactly where they don't rise strictly.
pub fn skill_set(skills: &LineNumbers<'_>) -> Option<u64>
    requires { AreBelow SKILLS skills.now }
    ensures { let ss = naturals skills.now in
        MatchOption result (IsStrictlyIncreasing ss → ⊥)
        (λ set. IsStrictlyIncreasing ss × (set ≡ mask_of ss)) }
{
    let mut set = 0u64;
    let mut least = 0u32;
    for n in 0..skills.len() {
        let skill = number_at(skills, n);
        if skill < least {
            return None;
        }
        set += 1u64 << skill;
        least = skill + 1;
    }
    Some(set)
}

/// The numbers at the end of a line, copied out of it.
pub(crate) fn number_list(alloc: Global, numbers: &LineNumbers<'_>) -> Result<Vec<u32>, AllocError>
    requires { AreBelow (LAST_MINUTE + 1) numbers.now }
    ensures { IfOk result (λ list. list.items ≡ naturals numbers.now) }
{
    // Written in place: a push would look for room each time.
    let mut list = vec![in alloc; 0u32; numbers.len()]?;
    for n in 0..numbers.len() {
        list[n] = number_at(numbers, n);
    }
    Ok(list)
}

/// The numbers of teams, copied out of a line. As many as a task may need take no memory of their own.
pub fn team_list(
    alloc: Global,
    teams: &LineNumbers<'_>,
) -> Result<SmallVec<u32, MOST_TEAMS_PER_TASK>, AllocError>
    requires { AreBelow MOST_TEAMS teams.now }
    ensures { IfOk result (λ list. list.items ≡ naturals teams.now) }
{
    let mut list = SmallVec::new(alloc);
    for n in 0..teams.len() {
        list.push(number_at(teams, n))?;
    }
    Ok(list)
}
