// When an open task fits. Each law is the contract of a function with nothing to do.
ghost use Rattle.std.specs.Prelude.{◌≡◌, ◌<◌, ◌↔◌, ℕ, length, None};
ghost use Rattle.crew_terms.specs.Instance.{Instance};
ghost use Rattle.crew_terms.specs.Plan.{Plan, job_of};
ghost use Rattle.crew_terms.specs.Legal.{IsLegal, IsPacked};
ghost use Rattle.team_days.specs.Adding.{FitsNowhere};
ghost use Rattle.why_not.specs.Fits.{first_fit};

use team_days::{free_teams_may_begin, obstacles_are_told};

/// No minute fits an unassigned task exactly where no job of the task can be added to the legal plan.
pub fn fits_is_told()
    ensures { (i : Instance) (p : Plan) (j : ℕ) → IsLegal i p → j < length i.tasks →
        job_of p j ≡ None →
        (first_fit i p j ≡ None) ↔ FitsNowhere i p j }
{
    obstacles_are_told();
}

/// No minute fits any unassigned task exactly where the legal plan is packed.
pub fn none_fits_where_packed()
    ensures { (i : Instance) (p : Plan) → IsLegal i p → IsPacked i p ↔
        ((j : ℕ) → j < length i.tasks → job_of p j ≡ None → first_fit i p j ≡ None) }
{
    fits_is_told();
    free_teams_may_begin();
}
