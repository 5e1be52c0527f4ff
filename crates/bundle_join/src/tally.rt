// What the dossiers of parts come to.
ghost use Rattle.std.specs.Prelude.{◌≡◌, ◌≤◌, ◌<◌, ◌+◌, ◌^◌, ◌++◌, ◌∷◌, [], ℕ, List, Err, IfOk, IsTrue, IsFalse, MatchResult, length};
ghost use Rattle.crew_instance.specs.Draft.{rows_of};
ghost use Rattle.dossier_terms.specs.Dossier.{Dossier, IsGood};
ghost use Rattle.dossier_terms.specs.Lines.{text_of};
ghost use Rattle.part_texts.specs.Bundle.{ArePartsOf};
ghost use Rattle.bundle_join.specs.Texts.{AreTexts};
ghost use Rattle.bundle_join.specs.Tallies.{IsNoBundle, IsTallied, IsTally};

use crate::join::JoinFault;
use crate::judged::judge_text;
use crew_instance::{Instance, Plan};
use crew_terms::MOST_TASKS;
use part_match::{Taken, restriction};
use part_texts::one_more_part;
use std::alloc::{AllocError, Global};

/// What is read of parts: the tasks that they have, the sum of their bounds, and the jobs of their plans.
#[derive(Drop)]
pub(crate) struct Tally {
    pub(crate) taken: Taken,
    pub(crate) bounds: u64,
    pub(crate) jobs: Plan,
}

/// Adds the jobs of a part's plan, whose tasks have these numbers in the whole.
fn add_jobs(jobs: &mut Plan, tasks: &[u32], plan: &Plan) -> Result<(), AllocError> {
    for i in 0..plan.len() as u32 {
        let Some(start) = plan.start(i) else {
            continue;
        };
        if let Some(j) = tasks.get(i as usize) {
            if (*j as usize) < jobs.len() {
                jobs.assign(*j, start, plan.teams(i))?;
            }
        }
    }
    Ok(())
}

/// Adds the part whose dossier has this text; false where it is no part of the whole, or has a task that is taken.
fn add_part(
    alloc: Global,
    whole: &Instance,
    text: &[u8],
    tally: &mut Tally,
) -> Result<bool, AllocError>
    requires { tally.old.bounds < 2 ^ 63 }
    ensures room { IfOk result (λ _. tally.new.bounds ≤ tally.old.bounds + 4294967295) }
    ensures says { IfOk result (λ took. (day : Dossier) (parts : List Dossier) (d : Dossier)
        → IsGood day → day.instance ≡ whole.now → IsGood d → text.now ≡ text_of d
        → IsTally day parts tally.old
        → (IsTrue took → IsTally day (parts ++ d ∷ []) tally.new)
        × (IsFalse took → ArePartsOf day.instance (parts ++ d ∷ []) → ⊥)) }
{
    one_more_part();
    let judged = judge_text(alloc, text)?;
    let Some(tasks) = restriction(alloc, whole, judged.checker.instance())? else {
        return Ok(false);
    };
    if !tally.taken.take(&tasks)? {
        return Ok(false);
    }
    tally.bounds += judged.verdict.bound as u64;
    add_jobs(&mut tally.jobs, &tasks, judged.checker.plan())?;
    Ok(true)
}

/// What the dossiers with these texts come to, as parts of the whole.
pub(crate) fn tally_of(
    alloc: Global,
    whole: &Instance,
    texts: &[Vec<u8>],
) -> Result<Tally, JoinFault>
    ensures says { (day : Dossier) (parts : List Dossier) → IsGood day → day.instance ≡ whole.now
        → AreTexts (rows_of texts.now) parts → MatchResult result (IsTallied day parts) (IsNoBundle day parts) }
    ensures no_write { result ≡ Err JoinFault.WriteFault → ⊥ }
{
    let mut tally = Tally {
        taken: Taken::new(alloc),
        bounds: 0,
        jobs: Plan::empty(alloc, whole.tasks())?,
    };
    for k in 0..texts.len() {
        if k >= MOST_TASKS {
            return Err(JoinFault::NoPart { number: k });
        }
        if !add_part(alloc, whole, &texts[k], &mut tally)? {
            return Err(JoinFault::NoPart { number: k });
        }
    }
    Ok(tally)
}
