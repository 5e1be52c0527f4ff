// The laws of parts: a legal plan of an instance, cut down to a part, is legal there, so the bounds of parts add up to a bound of
// the whole. Each law is the contract of a function with nothing to do.
#![tactic(auto)]

ghost use Rattle.std.specs.Prelude.{◌≤◌, ◌<◌, ◌≢◌, All, AllPairs, List, length, ℕ};
ghost use Rattle.std.specs.List.{sum_by};
ghost use Rattle.crew_terms.specs.Instance.{Instance};
ghost use Rattle.crew_terms.specs.Legal.{IsLegal};
ghost use Rattle.crew_terms.specs.Plan.{Plan, unassigned_count};
ghost use Rattle.crew_terms.specs.Rules.{IsInstance};
ghost use Rattle.part_terms.specs.Parts.{AreDisjointParts, Part, Restricts, cut_down};

use crew_laws::root_has_routes;

/// A legal plan of an instance, cut down to the tasks of an instance that restricts it, is legal for that one: between two tasks
/// of a team that are neighbours there stands a chain in the whole plan, whose times add up to at least the shorter one.
pub fn restricted_plans_are_legal()
    ensures { (i j : Instance) (tasks : List ℕ) (p : Plan) → IsInstance i → Restricts i j tasks →
        IsLegal i p → IsLegal j (cut_down p tasks) }
{
    root_has_routes();
}

/// Tasks that stand in no two lists are left unassigned in these lists together at most as often as in the whole plan.
pub fn open_tasks_of_parts_add()
    ensures { (i : Instance) (parts : List Part) (p : Plan) → AreDisjointParts i parts → IsLegal i p →
        sum_by (λ (part : Part). unassigned_count (cut_down p part.tasks)) parts ≤ unassigned_count p }
{}

/// What parts without a common task each leave at least, every legal plan of the whole leaves at least in sum.
pub fn bounds_of_parts_add()
    ensures { (i : Instance) (parts : List Part) (bound : Part → ℕ) (p : Plan) → IsInstance i →
        AreDisjointParts i parts →
        All (λ (part : Part). (q : Plan) → IsLegal part.instance q → bound part ≤ unassigned_count q) parts →
        IsLegal i p → sum_by bound parts ≤ unassigned_count p }
{
    open_tasks_of_parts_add();
    restricted_plans_are_legal();
}
