// What a search comes to is proved as the writer of dossiers needs it, and its causes as a dossier tells them.
ghost use Rattle.std.specs.Prelude.{◌≡◌, ◌≤◌, ℕ, List, All, length, map};
ghost use Rattle.branch_tree.specs.Trees.{BranchTree, preorder};
ghost use Rattle.cert_write.specs.Given.{IsWritable};
ghost use Rattle.crew_terms.specs.Branches.{splits};
ghost use Rattle.crew_terms.specs.Instance.{Instance};
ghost use Rattle.crew_terms.specs.Limits.{Route, root_limits};
ghost use Rattle.crew_terms.specs.Plan.{unassigned_count};
ghost use Rattle.crew_terms.specs.Rules.{IsInstance};
ghost use Rattle.crew_terms.specs.declared.TheConstants.{MOST_NUMBER};
ghost use Rattle.dossier_terms.specs.Causes.{Cause as ToldCause};
ghost use Rattle.dossier_terms.specs.Dossier.{IsPooled};
ghost use Rattle.search_core.specs.Searching.{split_cause};
ghost use Rattle.search_core.specs.Steps.{IsOutcome, IsSolved};
ghost use Rattle.search_core.specs.declared.causes.Cause.{Cause};
ghost use Rattle.search_core.specs.declared.causes.Outcome.{Outcome};
ghost use Rattle.search_terms.specs.Search.{IsRun, IsSearchRun, SearchState};
ghost use Rattle.written_laws.specs.Solved.{IsProvedOutcome};
ghost use Rattle.written_laws.specs.Told.{AreTold, Tell};
ghost use Rattle.search_core.specs.Outline.{handed_out};
ghost use Rattle.written_laws.specs.Proved.{AreCauses};

use branch_tree::one_tree;
use search_laws::{run_is_sound, run_keeps, search_nodes, search_run_is_run};

/// What a search comes to is proved at the root, within its budget.
pub fn solved_trees_are_proved()
    ensures { (i : Instance) (nodes : ℕ) (kept pool : List Route) (o : Outcome)
        → IsSolved i nodes kept pool o →
        IsProvedOutcome i nodes o }
{
    run_is_sound();
    run_keeps();
    search_run_is_run();
}

/// What a search comes to after any steps can be written: each split is one of its node, and has a cause, and each leaf has prices
/// of its node.
pub fn run_outcomes_are_writable()
    ensures tree { (i : Instance) (budget : ℕ) (pool : List Route) (s : SearchState) (o : Outcome)
        → IsRun i budget s →
        IsOutcome i pool s o → IsWritable (root_limits i) (handed_out s) }
    ensures causes { (i : Instance) (pool : List Route) (s : SearchState) (o : Outcome)
        → IsOutcome i pool s o →
        length o.causes.items ≡ splits (handed_out s) }
{
    run_is_sound();
}

/// A pool that the steps of a search leave is one of the instance, where the kept routes are.
pub fn solved_pools_are_of_the_instance()
    ensures { (i : Instance) (nodes : ℕ) (kept pool : List Route) (s : SearchState) → IsInstance i
        → IsSearchRun i nodes kept pool s →
        All (IsPooled i) kept → All (IsPooled i) pool }
{
    search_nodes();
    search_run_is_run();
}

/// The causes of a search, as a dossier tells them, may be told of the nodes of its tree.
pub fn solved_causes_may_be_told()
    ensures causes { (i : Instance) (nodes : ℕ) (kept pool : List Route) (o : Outcome)
        (tree : BranchTree) (told : List ToldCause) →
        IsSolved i nodes kept pool o → length pool ≤ MOST_NUMBER → o.tree ≡ preorder tree
        → AreTold o.causes.items told →
        AreCauses pool (unassigned_count o.plan) (root_limits i) tree told }
    ensures count { (o : Outcome) (told : List ToldCause) → AreTold o.causes.items told
        → length told ≡ length o.causes.items }
{
    one_tree();
}

/// What a dossier tells of the causes of a search is what the search has of them, with the columns of the dossier's pool.
pub fn told_causes_tell()
    ensures { (pool : List Route) (causes : List Cause) (told : List ToldCause)
        → AreTold causes told →
        Tell pool told (map (split_cause pool) causes) }
{}
