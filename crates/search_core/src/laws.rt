// Laws of steps by keys.
ghost use Rattle.std.specs.Prelude.{◌≤◌, ℕ, List};
ghost use Rattle.crew_terms.specs.Decided.{IsDecided};
ghost use Rattle.crew_terms.specs.Instance.{Instance};
ghost use Rattle.crew_terms.specs.Limits.{Route as TeamRoute};
ghost use Rattle.crew_terms.specs.Rules.{IsInstance};
ghost use Rattle.crew_terms.specs.Tree.{Tree};
ghost use Rattle.search_core.specs.Searching.{Searching, limits_of_key, state_of};
ghost use Rattle.search_core.specs.Steps.{IsClosed, IsKeyStep, IsOutcome, IsSearching};
ghost use Rattle.search_core.specs.declared.causes.Outcome.{Outcome};
ghost use Rattle.search_terms.specs.Search.{IsBound, IsSearchRun, IsSearched, SearchState, best};
ghost use Rattle.search_core.specs.Outline.{IsPricedAs, handed_out};

use search_laws::{decided_nodes_are_closed, steps_improve};

/// In a step by a key the bound does not fall and the plan gets no worse, and a decided node is closed.
pub fn key_steps_improve()
    ensures bound { (s t : Searching) (key pivots b c : ℕ) (columns more held : List TeamRoute)
        → IsInstance s.instance →
        IsSearching s → IsKeyStep key pivots columns more s t
        → IsBound s.instance (state_of held s) b →
        IsBound s.instance (state_of held t) c → b ≤ c }
    ensures best { (s t : Searching) (key pivots : ℕ) (columns more held : List TeamRoute)
        → IsKeyStep key pivots columns more s t →
        best (state_of held t) ≤ best (state_of held s) }
    ensures decided { (s t : Searching) (key pivots : ℕ) (columns more held : List TeamRoute)
        → IsKeyStep key pivots columns more s t →
        IsDecided (limits_of_key held s key) → IsClosed held key s t }
{
    steps_improve();
    decided_nodes_are_closed();
}

/// What a search comes to is one that it hands out, with any worths and potentials beside the prices of its tree.
pub fn outcomes_are_searched()
    ensures { (i : Instance) (budget : ℕ) (kept pool : List TeamRoute) (s : SearchState)
        (o : Outcome) (t : Tree) →
        IsSearchRun i budget kept pool s → IsOutcome i pool s o → IsPricedAs (handed_out s) t →
        IsSearched i budget kept (record { plan = o.plan; tree = t; pool = pool }) s }
{}
