// The laws of minute prices: what they bound in every legal plan, and what a price run hands out. Each law is the contract
// of a function with nothing to do.
#![tactic(auto)]

ghost use Rattle.std.specs.Prelude.{◌≡◌, ◌≤◌, ◌<◌, ◌↔◌, ◌≤ℤ◌, ◌*ℤ◌, Contains, IsTrue, List, ℕ, pos, Some, length, ℤ};
ghost use Rattle.crew_terms.specs.Instance.{Instance};
ghost use Rattle.crew_terms.specs.Leaf.{Proves};
ghost use Rattle.crew_terms.specs.Legal.{IsLegal};
ghost use Rattle.crew_terms.specs.Limits.{IsPermittedVisit, Limits, tasks_in};
ghost use Rattle.crew_terms.specs.Plan.{Job, Plan, job_of, unassigned_count};
ghost use Rattle.crew_terms.specs.Rules.{IsInstance};
ghost use Rattle.crew_terms.specs.declared.TheConstants.{D};
ghost use Rattle.crew_terms.specs.declared.Visit.{Visit};
ghost use Rattle.squeeze_terms.specs.Bound.{AreValidMinutePrices, minute_bound};
ghost use Rattle.squeeze_terms.specs.MinutePrices.{AreMinutePrices, MinutePrices};
ghost use Rattle.squeeze_terms.specs.Possible.{impossible_count, may_begin, possible_minutes};
ghost use Rattle.squeeze_terms.specs.Run.{prices_after};
ghost use Rattle.squeeze_terms.specs.Squeezed.{IsSqueezed};

use crew_laws::{
    jobs_earn_by_team, minutes_are_permitted, root_has_legal_plans, worth_bounds_routes,
    worths_bound_plans,
};
use search_laws::potentials_are_attained;

/// The teams that are counted for a possible minute are those that have the visit permitted.
pub fn able_teams_may_begin()
    ensures { (n : Limits) (k j t : ℕ) → j < tasks_in n →
        IsTrue (may_begin n k j t) ↔ IsPermittedVisit n k j t }
{
    minutes_are_permitted();
}

/// A legal plan begins each of its jobs at a possible minute.
pub fn jobs_begin_at_possible_minutes()
    ensures { (i : Instance) (p : Plan) (j : ℕ) (job : Job) → IsLegal i p → job_of p j ≡ Some job →
        Contains (possible_minutes i j) job.start }
{
    able_teams_may_begin();
    jobs_earn_by_team();
    root_has_legal_plans();
}

/// The bound of valid minute prices is at most D times what any legal plan leaves unassigned.
pub fn minute_prices_bound_plans()
    ensures { (i : Instance) (p : Plan) (prices : MinutePrices) (worths : List ℤ)
        (phi : ℕ → ℕ → ℕ → ℤ) →
        IsLegal i p → AreValidMinutePrices i prices worths phi →
        minute_bound i prices worths ≤ℤ (pos (unassigned_count p) *ℤ pos D) }
{
    jobs_begin_at_possible_minutes();
    jobs_earn_by_team();
    root_has_legal_plans();
    worths_bound_plans();
}

/// No legal plan leaves fewer tasks unassigned than valid minute prices prove.
pub fn minute_prices_prove()
    ensures { (i : Instance) (p : Plan) (prices : MinutePrices) (worths : List ℤ)
        (phi : ℕ → ℕ → ℕ → ℤ) (l : ℕ) →
        IsLegal i p → AreValidMinutePrices i prices worths phi →
        Proves (minute_bound i prices worths) l → l ≤ unassigned_count p }
{
    minute_prices_bound_plans();
}

/// The prices of a run are minute prices of its instance.
pub fn runs_have_minute_prices()
    ensures { (i : Instance) (trace : List (List (List Visit))) (s : ℕ) →
        AreMinutePrices i (prices_after i trace s) }
{}

/// No legal plan leaves fewer tasks unassigned than a price run hands out.
pub fn runs_prove()
    ensures { (i : Instance) (p : Plan) (steps best l : ℕ) (trace : List (List (List Visit))) →
        IsInstance i → IsLegal i p → IsSqueezed i steps best l trace → l ≤ unassigned_count p }
{
    minute_prices_prove();
    potentials_are_attained();
    runs_have_minute_prices();
    worth_bounds_routes();
}

/// What a price run hands out is at least the number of tasks without a possible minute.
pub fn runs_count_impossible_tasks()
    ensures { (i : Instance) (steps best l : ℕ) (trace : List (List (List Visit))) →
        IsSqueezed i steps best l trace → impossible_count i ≤ l }
{}
