// Laws of the tests of a plan's jobs: what each of them tells, and which task they tell as faulty. Each law is the contract
// of a function with nothing to do.
ghost use Rattle.std.specs.Prelude.{◌≡◌, ◌↔◌, ℕ, true, None};
ghost use Rattle.crew_terms.specs.Instance.{Instance};
ghost use Rattle.crew_terms.specs.Rules.{AreParts};
ghost use Rattle.crew_terms.specs.Plan.{Job, Plan};
ghost use Rattle.crew_terms.specs.Legal.{IsFeasible, IsJob};
ghost use Rattle.crew_terms.specs.Verdict.{IsFeasibility, IsFirstClash, IsPlanOf};
ghost use Rattle.crew_terms.specs.declared.PlanVerdict.{PlanVerdict};
ghost use Rattle.crew_instance.specs.Draft.{task_named};
ghost use Rattle.day_terms.specs.Faulty.{faulty_task, is_first_clash, is_good};

/// A law: the test of a job passes exactly the good ones.
pub fn good_jobs_pass()
    ensures { (i : Instance) (j : ℕ) (job : Job) → (is_good i j job ≡ true) ↔ IsJob i j job }
{}

/// A law: the test of a team's tasks passes exactly the first from which the team can't come to its next in time.
pub fn first_clash_passes()
    ensures { (i : Instance) (p : Plan) (k j : ℕ) →
        (is_first_clash i p k j ≡ true) ↔ ((h : ℕ) × IsFirstClash i p k j h) }
{}

/// A law: the task that is told as faulty is the one that the first fault of the plan names; where each task takes
/// some minutes, as those within the limits do, none is told exactly where the plan is feasible.
pub fn first_fault_is_told()
    ensures fault { (i : Instance) (p : Plan) (told : PlanVerdict) → IsPlanOf i p →
        IsFeasibility i p told →
        faulty_task i p ≡ task_named told }
    ensures feasible { (i : Instance) (p : Plan) → AreParts i.places i.teams i.tasks →
        IsPlanOf i p →
        (faulty_task i p ≡ None) ↔ IsFeasible i p }
{
    good_jobs_pass();
    first_clash_passes();
}
