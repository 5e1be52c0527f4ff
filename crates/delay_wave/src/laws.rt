// What holds of the waits of a plan. Each law is the contract of a function with nothing to do.
ghost use Rattle.std.specs.Prelude.{◌≡◌, ◌<◌, ◌≤◌, ◌+◌, ℕ, List, Option, Some, length};
ghost use Rattle.crew_terms.specs.Instance.{Instance};
ghost use Rattle.crew_terms.specs.Plan.{Plan, Job, job_of};
ghost use Rattle.crew_terms.specs.Legal.{IsLegal};
ghost use Rattle.delay_wave.specs.declared.lates.Late.{Late};
ghost use Rattle.delay_wave.specs.declared.waits.Wait.{Wait};
ghost use Rattle.delay_wave.specs.Delays.{AreEarliest};
ghost use Rattle.delay_wave.specs.Waits.{AreWaits, IsChain, chain_of, holder_of};

/// Following the tasks that hold a task up ends, after at most as many steps as there are tasks, at one that begins as
/// planned. Each of them is a task of the plan, and each link is
/// tight, as `HoldsUp` of the waits says.
pub fn chains_are_tight()
    ensures chain { (i : Instance) (p : Plan) (lates : List Late) (w : List (Option Wait)) (j : ℕ)
        → IsLegal i p → AreWaits i p lates w → j < length p → IsChain w (chain_of w j) j }
    ensures known { (i : Instance) (p : Plan) (lates : List Late) (w : List (Option Wait)) (j h : ℕ)
        → IsLegal i p → AreWaits i p lates w → holder_of w j ≡ Some h → h < length p }
    ensures few { (w : List (Option Wait)) (j : ℕ) → length (chain_of w j) ≤ length w + 1 }
{}

/// A plan has one list of earliest starts of its tasks.
pub fn earliest_is_one()
    ensures { (i : Instance) (p : Plan) (lates : List Late) (x y : ℕ → ℕ) (j : ℕ) (job : Job)
        → AreEarliest i p lates x → AreEarliest i p lates y → job_of p j ≡ Some job → x j ≡ y j }
{}

/// A legal plan has one list of waits.
pub fn waits_are_one()
    ensures { (i : Instance) (p : Plan) (lates : List Late) (w v : List (Option Wait))
        → IsLegal i p → AreWaits i p lates w → AreWaits i p lates v → w ≡ v }
{}
