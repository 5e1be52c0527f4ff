// The laws of the planner's search: what prices prove in a node and in those inside it, what decided nodes hold, and what
// every run of the search keeps and hands out. Each law is the contract of a function with nothing to do.
#![tactic(auto)]

ghost use Rattle.std.specs.Prelude.{◌≡◌, ◌≢◌, ◌≤◌, ◌<◌, ◌+◌, ◌++◌, ◌∷◌, [], ◌↔◌, List, ℕ, ℤ, true};
ghost use Rattle.crew_terms.specs.Branches.{LeafNode, SplitNode, closed, splits};
ghost use Rattle.crew_terms.specs.Instance.{Instance};
ghost use Rattle.crew_laws.specs.Visits.{visit};
ghost use Rattle.crew_terms.specs.Leaf.{AreInRange, HoldsLocally, IsOnRequired, IsValidLeaf, Prices, Proves, bound_of, earned, rewards, worth_of};
ghost use Rattle.crew_terms.specs.Legal.{IsLegal};
ghost use Rattle.crew_terms.specs.Limits.{IsLimits, IsPermittedVisit, IsRoute, IsWithin, Limits, Route, has_required, pair_of, root_limits, tasks_in, teams_in};
ghost use Rattle.crew_terms.specs.Plan.{Plan, unassigned_count};
ghost use Rattle.crew_terms.specs.Rules.{IsInstance};
ghost use Rattle.crew_terms.specs.Tree.{CanSplit, IsSound, Tree, child};
ghost use Rattle.crew_terms.specs.declared.Choice.{Choice};
ghost use Rattle.crew_terms.specs.declared.Pair.TheVariants.{Required};
ghost use Rattle.crew_terms.specs.declared.Side.{Side};
ghost use Rattle.crew_terms.specs.declared.Visit.{Visit};
ghost use Rattle.search_terms.specs.Caused.{AreLooseShown, AreRunsShown, IsCaused, IsLooseShown, LooseProves};
ghost use Rattle.search_terms.specs.Choice.{IsValidChoice};
ghost use Rattle.crew_terms.specs.Decided.{IsDecided};
ghost use Rattle.search_terms.specs.Closing.{AreRequiredVisits, AreStaffed, CrowdedPrices, HasNoPlan, HasOnePlan, IsCrowded, IsShort, IsStuck, NoneIsStuck, OpenPrices, ShortPrices, StuckPrices, required_plan};
ghost use Rattle.search_terms.specs.Inside.{IsInside, IsNode};
ghost use Rattle.search_terms.specs.Proven.{PricesProve};
ghost use Rattle.search_terms.specs.Search.{Becomes, IsBound, IsHandedOut, IsKeepable, IsProved, IsRun, IsSearchRun, IsSearched, IsSplit, IsSearchStep, SearchOutcome, SearchState, best};
ghost use Rattle.search_terms.specs.SearchTree.{ClosedLeaf, EachOpen, IsTreeOf, OpenLeaf, SearchTree, Split, causes, closed_leaves};
ghost use Rattle.share_terms.specs.Shares.{visits_to};
ghost use Rattle.search_terms.specs.Ways.{CameFrom, IsOpenAt, StaysOpen, limits_at, prices_at, replaced};

use crew_laws::{
    children_are_limits, leaf_proves, required_teams_are_listed, root_is_limits, root_tree_proves,
    worth_bounds_routes,
};

// ---- what prices prove

/// What prices prove in a node they prove in every node inside it, and so in both children of a split.
pub fn prices_prove_inside()
    ensures inside { (inner outer : Limits) (prices : Prices) (l : ℕ) → IsInside inner outer →
        PricesProve outer prices l → PricesProve inner prices l }
    ensures children { (n : Limits) (choice : Choice) (side : Side) (prices : Prices) (l : ℕ)
        → IsLimits n → CanSplit n choice →
        PricesProve n prices l → PricesProve (child n choice side) prices l }
{}

/// What prices prove they prove of each smaller number.
pub fn less_is_proved()
    ensures { (n : Limits) (prices : Prices) (l m : ℕ) → m ≤ l → PricesProve n prices l
        → PricesProve n prices m }
{}

/// Prices in their range have worths that routes attain, with potentials.
pub fn prices_have_potentials()
    ensures { (n : Limits) (prices : Prices) → IsInstance n.instance → AreInRange prices
        → IsOnRequired n prices →
        (worths : List ℤ) × (phi : ℕ → ℕ → ℕ → ℤ) × IsValidLeaf n prices worths phi ×
        ((k : ℕ) → k < teams_in n → (r : List Visit) × IsRoute n k r
        × (rewards (earned prices k) r ≡ worth_of worths k)) }
{}

/// A team has potentials that hold locally with its worth: at each visit what some route from there on earns.
pub fn potentials_are_attained()
    ensures { (n : Limits) (k : ℕ) (w : ℕ → ℕ → ℤ) → IsInstance n.instance →
        (phi : ℕ → ℕ → ℤ) × (worth : ℤ) × HoldsLocally n k w phi worth ×
        ((r : List Visit) × IsRoute n k r × (rewards w r ≡ worth)) ×
        ((j t : ℕ) → IsPermittedVisit n k j t → (r : List Visit) × IsRoute n k (visit j t ∷ r)
        × (rewards w (visit j t ∷ r) ≡ phi j t)) }
{}

/// Worths that routes attain prove what any worths prove.
pub fn attained_worths_decide()
    ensures { (n : Limits) (prices : Prices) (worths : List ℤ) (phi : ℕ → ℕ → ℕ → ℤ) (l : ℕ) →
        IsValidLeaf n prices worths phi →
        ((k : ℕ) → k < teams_in n → (r : List Visit) × IsRoute n k r
        × (rewards (earned prices k) r ≡ worth_of worths k)) →
        PricesProve n prices l ↔ Proves (bound_of n prices worths) l }
{
    worth_bounds_routes();
}

// ---- nodes, and those that are decided

/// The root is a node, a split makes nodes of one, and so every node of a search is one: its limits are limits, and lie
/// inside those of the root.
pub fn search_nodes()
    ensures root { (i : Instance) → IsInstance i → IsNode (root_limits i) }
    ensures children { (n : Limits) (choice : Choice) (side : Side) → IsNode n → CanSplit n choice →
        IsNode (child n choice side) }
    ensures search { (i : Instance) (budget : ℕ) (s : SearchState) (way : List Side) → IsInstance i
        → IsRun i budget s →
        IsNode (limits_at (root_limits i) s.tree way) }
{
    root_is_limits();
    children_are_limits();
}

/// A node that allows a valid choice is not decided.
pub fn choices_are_undecided()
    ensures { (n : Limits) (choice : Choice) → IsValidChoice n choice → IsDecided n → ⊥ }
{}

/// In a decided node a team's required tasks, in order of start, are the only route that holds them all.
pub fn only_route_of_all()
    ensures { (n : Limits) (k : ℕ) (visits route : List Visit) → IsInstance n.instance → IsDecided n
        → k < teams_in n →
        AreRequiredVisits n k visits → IsRoute n k route →
        ((j : ℕ) → pair_of n k j ≡ Required → 1 ≤ visits_to j route) → route ≡ visits }
{}

/// In a decided node with a stuck team, or with a task that has too many required teams or some and too few, prices prove
/// every number of tasks; in each decided node others prove what the plan of the required pairs leaves unassigned.
pub fn closing_prices_prove()
    ensures stuck { (n : Limits) (p : Prices) (k l : ℕ) → IsInstance n.instance → IsLimits n
        → IsDecided n → AreInRange p →
        k < teams_in n → IsStuck n k → StuckPrices n k p → l ≤ tasks_in n → PricesProve n p l }
    ensures crowded { (n : Limits) (p : Prices) (j l : ℕ) → IsInstance n.instance → IsLimits n
        → IsDecided n → AreInRange p →
        IsCrowded n j → CrowdedPrices n j p → l ≤ tasks_in n → PricesProve n p l }
    ensures short { (n : Limits) (p : Prices) (j l : ℕ) → IsInstance n.instance → IsLimits n
        → IsDecided n → AreInRange p →
        IsShort n j → ShortPrices n j p → l ≤ tasks_in n → PricesProve n p l }
    ensures open { (n : Limits) (p : Prices) → IsInstance n.instance → IsLimits n → IsDecided n
        → AreInRange p →
        OpenPrices n p → PricesProve n p (unassigned_count (required_plan n)) }
{}

/// In a decided node at or below the root in which no team is stuck, and each task has all its teams required or none,
/// the plan of the required pairs is the one legal plan. It has the frozen jobs, since the limits of the root require them.
pub fn one_plan_is_left()
    ensures legal { (n : Limits) → IsInstance n.instance → IsNode n → IsDecided n → NoneIsStuck n
        → AreStaffed n →
        IsLegal n.instance (required_plan n) }
    ensures within { (n : Limits) → IsInstance n.instance → IsLimits n → IsDecided n
        → IsWithin n (required_plan n) }
    ensures only { (n : Limits) (r : Plan) → IsInstance n.instance → IsLimits n → IsDecided n →
        IsLegal n.instance r → IsWithin n r → r ≡ required_plan n }
{
    required_teams_are_listed();
}

/// Where prices prove the number of all tasks, and the node has a required pair, no legal plan is in the node.
pub fn no_plan_is_left()
    ensures { (n : Limits) (p : Prices) (q : Plan) (j : ℕ) → PricesProve n p (tasks_in n) →
        j < tasks_in n → has_required n j ≡ true → IsLegal n.instance q → IsWithin n q → ⊥ }
{
    leaf_proves();
}

/// The four cases of a decided node, the last at or below the root.
pub fn decided_cases()
    ensures stuck { (n : Limits) (p : Prices) (k : ℕ) → IsInstance n.instance → IsLimits n
        → IsDecided n → AreInRange p →
        k < teams_in n → IsStuck n k → StuckPrices n k p → HasNoPlan n p }
    ensures crowded { (n : Limits) (p : Prices) (j : ℕ) → IsInstance n.instance → IsLimits n
        → IsDecided n → AreInRange p →
        IsCrowded n j → CrowdedPrices n j p → HasNoPlan n p }
    ensures short { (n : Limits) (p : Prices) (j : ℕ) → IsInstance n.instance → IsLimits n
        → IsDecided n → AreInRange p →
        IsShort n j → ShortPrices n j p → HasNoPlan n p }
    ensures one { (n : Limits) (p : Prices) → IsInstance n.instance → IsNode n → IsDecided n
        → AreInRange p →
        NoneIsStuck n → AreStaffed n → OpenPrices n p → HasOnePlan n p (required_plan n) }
{
    closing_prices_prove();
    one_plan_is_left();
    no_plan_is_left();
}

// ---- runs of the search

/// After any steps, whichever open leaves they took, the tree is sound with what the open leaves prove and what
/// the plan leaves unassigned: with each number up to the bound, and so with the bound.
pub fn run_is_sound()
    ensures { (i : Instance) (budget : ℕ) (s : SearchState) (l : ℕ) → IsRun i budget s
        → IsProved i s l →
        (t : Tree) × IsTreeOf s.tree t × IsSound t (root_limits i) l (best s) }
{}

/// After any steps the plan is legal and packed, and splits, closed leaves and the steps that are left make the budget.
pub fn run_keeps()
    ensures plan { (i : Instance) (budget : ℕ) (s : SearchState) → IsRun i budget s
        → IsKeepable i s.plan }
    ensures count { (i : Instance) (budget : ℕ) (s : SearchState) → IsRun i budget s →
        splits s.tree + closed_leaves s.tree + s.left ≡ budget }
{}

/// After any steps no legal plan leaves fewer tasks unassigned than the bound.
pub fn bound_holds()
    ensures { (i : Instance) (budget : ℕ) (s : SearchState) (b : ℕ) (p : Plan) → IsInstance i
        → IsRun i budget s → IsBound i s b →
        IsLegal i p → b ≤ unassigned_count p }
{
    root_tree_proves();
}

/// In a step the bound does not fall: what was proved stays proved. And the plan gets no worse.
pub fn steps_improve()
    ensures proved { (i : Instance) (budget : ℕ) (way : List Side) (pivots : ℕ)
        (columns more : List Route) (s t : SearchState)
        (l : ℕ) → IsInstance i → IsRun i budget s → IsSearchStep i way pivots columns more s t
        → IsProved i s l → IsProved i t l }
    ensures bound { (i : Instance) (budget : ℕ) (way : List Side) (pivots : ℕ)
        (columns more : List Route) (s t : SearchState)
        (b c : ℕ) → IsInstance i → IsRun i budget s → IsSearchStep i way pivots columns more s t →
        IsBound i s b → IsBound i t c → b ≤ c }
    ensures best { (i : Instance) (way : List Side) (pivots : ℕ) (columns more : List Route)
        (s t : SearchState) →
        IsSearchStep i way pivots columns more s t → best t ≤ best s }
{
    root_tree_proves();
    root_is_limits();
}

/// After any steps each open leaf's prices have worths and potentials in its node: they prove 0.
pub fn leaves_have_potentials()
    ensures { (i : Instance) (budget : ℕ) (s : SearchState) → IsInstance i → IsRun i budget s
        → IsProved i s 0 }
{
    root_tree_proves();
    root_is_limits();
}

/// A step closes a decided node.
pub fn decided_nodes_are_closed()
    ensures { (now pivots : ℕ) (columns : List Route) (n : Limits) (own : Prices)
        (new : SearchTree) →
        IsDecided n → Becomes now pivots columns n own new →
        (prices : Prices) × (new ≡ LeafNode (ClosedLeaf prices)) × PricesProve n prices now }
{
    choices_are_undecided();
}

/// The open leaves of a tree are those at the end of its ways to one; a change at one leaves the others as they are.
pub fn ways_are_leaves()
    ensures each { (n : Limits) (t : SearchTree) (l : ℕ) →
        EachOpen (λ m prices. PricesProve m prices l) n t ↔
        ((way : List Side) → IsOpenAt t way → PricesProve (limits_at n t way) (prices_at t way) l) }
    ensures others { (n : Limits) (t : SearchTree) (way other : List Side) (new : SearchTree) →
        IsOpenAt t way → IsOpenAt t other → other ≢ way → StaysOpen n t (replaced t way new) other }
    ensures no_more { (t : SearchTree) (way other : List Side) (new : SearchTree) →
        IsOpenAt t way → IsOpenAt (replaced t way new) other → CameFrom t way new other }
    ensures children { (n : Limits) (t : SearchTree) (way : List Side) (side : Side) (split : Split)
        (p q : Prices) →
        IsOpenAt t way →
        limits_at n (replaced t way (SplitNode split (LeafNode (OpenLeaf p))
        (LeafNode (OpenLeaf q)))) (way ++ side ∷ []) ≡
        child (limits_at n t way) split.choice side }
{}

// ---- runs over a pool, and what is handed out

/// A run over a pool is a run.
pub fn search_run_is_run()
    ensures { (i : Instance) (budget : ℕ) (kept pool : List Route) (s : SearchState) →
        IsSearchRun i budget kept pool s → IsRun i budget s }
{}

/// A search can hand out a tree that is sound with each number up to its bound.
pub fn handed_out_is_sound()
    ensures { (i : Instance) (budget : ℕ) (s : SearchState) (l : ℕ) → IsRun i budget s
        → IsProved i s l →
        (t : Tree) × IsHandedOut s t × IsSound t (root_limits i) l (best s) }
{}

/// The plan that a search hands out is legal and packed, and the splits and the closed leaves of its tree and the steps
/// that are left make its budget.
pub fn searched_outcomes()
    ensures plan { (i : Instance) (budget : ℕ) (kept : List Route) (o : SearchOutcome)
        (s : SearchState) →
        IsSearched i budget kept o s → IsKeepable i o.plan }
    ensures count { (i : Instance) (budget : ℕ) (kept : List Route) (o : SearchOutcome)
        (s : SearchState) → IsSearched i budget kept o s →
        splits o.tree + closed o.tree + s.left ≡ budget }
{}

/// Where the prices that a loose split found prove what its choice nearly proves, its open leaves prove it; and in each
/// later step the open leaves below a loose split go on to prove it.
pub fn loose_splits_stay_shown()
    ensures new { (now pivots : ℕ) (columns : List Route) (n : Limits) (own handed : Prices)
        (split : Split)
        (is : IsSplit now pivots columns n own handed split) → IsLimits n
        → LooseProves n is.found split.cause.why →
        IsLooseShown n (SplitNode split (LeafNode (OpenLeaf handed)) (LeafNode (OpenLeaf handed)))
        split.cause.why }
    ensures step { (i : Instance) (way : List Side) (pivots : ℕ) (columns more : List Route)
        (s t : SearchState)
        (step : IsSearchStep i way pivots columns more s t) → IsInstance i →
        AreLooseShown (limits_at (root_limits i) s.tree way) step.new →
        AreLooseShown (root_limits i) s.tree → AreLooseShown (root_limits i) t.tree }
{
    root_is_limits();
}

/// The run of the master over the whole pool shows the overflow or the spent pivots for which a search split a node.
pub fn runs_stay_shown()
    ensures { (i : Instance) (budget : ℕ) (kept pool : List Route) (s : SearchState)
        → IsSearchRun i budget kept pool s →
        AreRunsShown pool (root_limits i) s.tree }
{}

/// What a search hands out is caused, where its loose splits are shown.
pub fn searches_are_caused()
    ensures { (i : Instance) (budget : ℕ) (kept : List Route) (o : SearchOutcome) (s : SearchState)
        → IsSearched i budget kept o s →
        AreLooseShown (root_limits i) s.tree → IsCaused i budget kept o (causes s.tree) }
{
    runs_stay_shown();
}
