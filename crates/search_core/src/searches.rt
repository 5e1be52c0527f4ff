// A search between two steps: what it keeps, and what is asked of it.
ghost use Rattle.std.specs.Prelude.{◌≡◌, ◌≤◌, ◌<◌, ◌⊎◌, ◌∷◌, [], ℕ, ℤ, List, IfNone, IfOk, IfSome, length, option_copied, slice_index};
ghost use Rattle.crew_terms.specs.Leaf.{zero_prices};
ghost use Rattle.crew_terms.specs.Legal.{IsLegal};
ghost use Rattle.crew_terms.specs.Limits.{Route as TeamRoute, root_limits};
ghost use Rattle.crew_terms.specs.declared.TheConstants.{MOST_NODES};
ghost use Rattle.search_tree.specs.Aged.{leaves_of};
ghost use Rattle.search_tree.specs.Keyed.{IsKeyed};
ghost use Rattle.node_queue.specs.Waits.{keys_of};
ghost use Rattle.plan_again.specs.Stays.{StaysOrBetters};
ghost use Rattle.search_core.specs.Kept.{IsKeptSearch};
ghost use Rattle.search_core.specs.Searching.{IsOpenKey, state_of};
ghost use Rattle.search_core.specs.Steps.{IsCounted, IsDone, IsSearching};
ghost use Rattle.search_terms.specs.BestFirst.{IsBoundIn};
ghost use Rattle.search_terms.specs.Search.{IsBound, IsStart, best};

use crate::begun::Begun;
use crate::causes::Cause;
use crate::effort::Effort;
use crate::scripted::Scripted;
use crew_instance::{Instance, Plan, unassigned};
use kept_prices::KeptPrices;
use label_pricing::{Pricer, most_proved};
use node_limits::Limits;
use plan_again::first_plan;
use potentials::Prices;
use search_laws::run_keeps;
use search_tree::{KeyedTree, least_bounds, numbers_stay};
use std::alloc::{AllocError, Global};
use std::marker::Model;

/// A search by branch and price over an instance: the best plan so far, and a tree whose open leaves wait under keys, for steps
/// in any order. The limits of a node are reached from those of the root by its turns, and taken back.
///
/// In contracts: the instance, the budget of steps, the plan, the steps that are left, the tree by numbered nodes with its open
/// leaves, and the prices and causes of its numbers. For any columns that its causes may be of, `state_of` is its state as the
/// definitions of runs have it.
#[derive(Drop)]
pub struct Search<'i> {
    pub(crate) limits: Limits<'i>,
    pub(crate) pricer: Pricer,
    pub(crate) plan: Plan,
    pub(crate) keyed: KeyedTree,
    // By their numbers in the tree.
    pub(crate) prices: Vec<KeptPrices>,
    pub(crate) causes: Vec<Cause>,
    pub(crate) budget: u32,
    pub(crate) left: u32,
    pub(crate) effort: Effort,
    // What it began with.
    pub(crate) begun: Begun,
    // By what its steps go.
    pub(crate) scripted: Scripted,
}

impl<'i> Model for Search<'i> {
    ghost use Rattle.search_core.specs.Searching.{Searching};

    ghost Value = { Searching };

    ghost use Rattle.search_core.specs.Kept.{searching, IsKept};

    ghost view = { searching };

    ghost invariant = { IsKept };
}

impl<'i> Search<'i> {
    /// A search over the instance with so many steps, and this effort: its plan is legal and packed, found by search from
    /// greedy's, and its root is open at zero prices. Where a legal plan is there to begin with, its plan is that one with the
    /// tasks that can be added, unless search finds one that does more, and plans that the steps find are brought near to it.
    /// AllocError where there is no memory.
    pub fn new(
        alloc: Global,
        instance: &'i Instance,
        nodes: u32,
        begin: Option<&Plan>,
        effort: Effort,
    ) -> Result<Search<'i>, AllocError>
        requires few { nodes ≤ MOST_NODES }
        requires begin { IfSome (option_copied begin) (λ p. IsLegal instance.now p) }
        ensures start { (columns : List TeamRoute)
            → IfOk result (λ s. IsStart instance.now nodes (state_of columns s)) }
        ensures root { IfOk result (λ s. (bound : ℤ) ×
            IsBoundIn (root_limits instance.now) (zero_prices (root_limits instance.now)) bound
            × (leaves_of s.keyed ≡ record { way = []; bound = bound } ∷ [])) }
        ensures instance { IfOk result (λ s. s.instance ≡ instance.now) }
        ensures budget { IfOk result (λ s. s.budget ≡ nodes) }
        ensures stays { IfOk result (λ s. StaysOrBetters (option_copied begin.entry) s.plan) }
    {
        numbers_stay();
        let limits = Limits::root(alloc, instance)?;
        let mut pricer = Pricer::reserve(alloc, instance)?;
        let begun = Begun::of(begin, effort.near.over(instance.tasks()))?;
        let plan = first_plan(alloc, instance, begin, &effort.first(instance.tasks()))?;
        let zero = Prices::zero(alloc, &limits)?;
        let bound = pricer.proved(&limits, &zero).bound;
        let keyed = KeyedTree::root(alloc, 0, bound)?;
        let mut prices = Vec::with_capacity(alloc, 1)?;
        prices.push(KeptPrices::of(alloc, &limits, &zero)?)?;
        Ok(Search {
            limits,
            pricer,
            plan,
            keyed,
            prices,
            causes: Vec::new(alloc),
            budget: nodes,
            left: nodes,
            effort,
            begun,
            scripted: Scripted::none(),
        })
    }

    /// How many leaves are open.
    pub fn open_len(&self) -> usize
        ensures count { result ≡ length self.now.keyed.waits }
        ensures searching { IsSearching self.now }
    {
        self.keyed.len()
    }

    /// The n-th key of an open leaf by age, from 0.
    pub fn open_key(&self, n: usize) -> usize
        requires { n < length self.now.keyed.waits }
        ensures key { result ≡ slice_index (keys_of self.now.keyed.waits) n }
        ensures leaf { IsOpenKey self.now result }
    {
        self.keyed.key(n)
    }

    /// How many steps are left.
    pub fn left(&self) -> u32
        ensures left { result ≡ self.now.left }
        ensures count { (columns : List TeamRoute)
            → IsCounted self.now.budget (state_of columns self.now) }
    {
        run_keeps();
        self.left
    }

    /// How many tasks the best plan leaves unassigned.
    pub fn best(&self) -> u32
        ensures { (columns : List TeamRoute) → result ≡ best (state_of columns self.now) }
    {
        unassigned(&self.plan)
    }

    /// The least of what the best plan leaves unassigned and what the open leaves prove. It looks at the leaf of least bound.
    pub fn bound(&self) -> u32
        ensures { (columns : List TeamRoute) → IsBound self.now.instance
            (state_of columns self.now) result }
    {
        run_keeps();
        least_bounds();
        // What always holds of the tree is known from here on.
        let _ = self.keyed.len();
        let best = unassigned(&self.plan);
        match self.keyed.least() {
            Some(key) => best.min(most_proved(&self.limits, self.keyed.leaf(key).bound)),
            None => best,
        }
    }
}
