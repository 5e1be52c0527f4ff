// The dossiers of the parts of a day, one after another.
ghost use Rattle.std.specs.Prelude.{◌≡◌, ◌≤◌, ◌<◌, ◌+◌, ◌*◌, ◌^◌, ◌++◌, ◌∷◌, [], ℕ, List, Err, IfOk, MatchResult, IsTrue, IsFalse, length};
ghost use Rattle.crew_terms.specs.declared.TheConstants.{MOST_TASKS};
ghost use Rattle.crew_io.specs.Draws.{TellsReads};
ghost use Rattle.dossier_terms.specs.Dossier.{Dossier, IsGood};
ghost use Rattle.dossier_commands.specs.Input.{IsGoing};
ghost use Rattle.part_texts.specs.Bundle.{ArePartsOf, Bundle, HaveTasks};
ghost use Rattle.parts_reader.specs.Stages.{HaltsAt, IsTallied};

use crate::dossier::{WholeDossier, read_dossier};
use crate::halt::Halt;
use crate::reason::BundleReason;
use crew_io::lines::LineReader;
use crew_io::source::Source;
use part_match::{Instance, Taken, restriction};
use part_texts::one_more_part;
use std::alloc::{AllocError, Global};

/// What is read of the parts of a day: the tasks that they have, the sum of their bounds, and the number of lines that are
/// read up to their end.
#[derive(Drop)]
pub(crate) struct Tally {
    pub(crate) taken: Taken,
    pub(crate) bounds: u64,
    pub(crate) lines: u64,
}

/// Takes the tasks of a part; false where it is no part of the whole, or has a task that is taken. All is then as before.
fn take_part(
    alloc: Global,
    whole: &Instance,
    part: &Instance,
    taken: &mut Taken,
) -> Result<bool, AllocError>
    ensures { IfOk result (λ took. (day : Dossier) (parts : List Dossier) (d : Dossier)
        → IsGood day → day.instance ≡ whole.now → d.instance ≡ part.now
        → HaveTasks day.instance parts taken.old
        → (IsTrue took → HaveTasks day.instance (parts ++ d ∷ []) taken.new)
        × (IsFalse took → ArePartsOf day.instance (parts ++ d ∷ []) → ⊥)) }
{
    one_more_part();
    match restriction(alloc, whole, part)? {
        Some(tasks) => taken.take(&tasks),
        None => Ok(false),
    }
}

/// Reads the dossier of one part more.
fn add_part<S: Source>(
    alloc: Global,
    whole: &Instance,
    reader: &mut LineReader,
    tally: &mut Tally,
    src: &mut S,
) -> Result<(), Halt>
    requires going { IsGoing reader.old tally.old.lines }
    requires room { tally.old.bounds < 2 ^ 63 }
    ensures going { IfOk result (λ _. IsGoing reader.new tally.new.lines) }
    ensures more { IfOk result (λ _. reader.old.handed ≤ reader.new.handed) }
    ensures room { IfOk result (λ _. tally.new.bounds ≤ tally.old.bounds + 2 ^ 32) }
    ensures says { (input : List ℕ) (done : List Bundle) (day : Dossier) (k : ℕ) (parts : List Dossier)
        → day.instance ≡ whole.now → length parts < k
        → IsTallied input done day k parts reader.old (S.left src.old) tally.old → MatchResult result
        (λ _. (d : Dossier)
        × IsTallied input done day k (parts ++ d ∷ []) reader.new (S.left src.new) tally.new)
        (HaltsAt input done (S.left src.new)) }
    ensures tells { TellsReads S.Source src.old src.new (result ≡ Err Halt.ReadFault) }
{
    let part = read_dossier(alloc, reader, tally.lines, src)?;
    let lines = part.checker.lines();
    let took = take_part(alloc, whole, part.checker.instance(), &mut tally.taken)?;
    if !took {
        return Err(Halt::No {
            line: lines,
            reason: BundleReason::Part,
        });
    }
    tally.bounds += part.verdict.bound as u64;
    tally.lines = lines;
    Ok(())
}

/// Reads the dossiers of `k` parts.
pub(crate) fn add_parts<S: Source>(
    alloc: Global,
    whole: &Instance,
    k: u32,
    reader: &mut LineReader,
    tally: &mut Tally,
    src: &mut S,
) -> Result<(), Halt>
    requires going { IsGoing reader.old tally.old.lines }
    requires few { k ≤ MOST_TASKS }
    requires none { tally.old.bounds ≡ 0 }
    ensures going { IfOk result (λ _. IsGoing reader.new tally.new.lines) }
    ensures more { IfOk result (λ _. reader.old.handed ≤ reader.new.handed) }
    ensures says { (input : List ℕ) (done : List Bundle) (day : Dossier) → day.instance ≡ whole.now
        → IsTallied input done day k [] reader.old (S.left src.old) tally.old → MatchResult result
        (λ _. (parts : List Dossier) × (length parts ≡ k)
        × IsTallied input done day k parts reader.new (S.left src.new) tally.new)
        (HaltsAt input done (S.left src.new)) }
    ensures tells { TellsReads S.Source src.old src.new (result ≡ Err Halt.ReadFault) }
{
    'parts: for _ in 0..k {
        add_part(alloc, whole, reader, tally, src)?;
    }
    Ok(())
}
