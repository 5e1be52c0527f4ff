// The ascent: prices are moved in a direction in which the bound rises, round by round.
ghost use Rattle.std.specs.Prelude.{◌≡◌, ◌≤◌, ◌≤ℤ◌, ℕ, ℤ, All, IfOk};
ghost use Rattle.crew_terms.specs.Leaf.{IsOnRequired, Prices as NodePrices};
ghost use Rattle.crew_terms.specs.Limits.{Limits as NodeLimits};
ghost use Rattle.crew_terms.specs.Rules.{IsInstance};
ghost use Rattle.potentials.specs.Prices.{ArePricesOf};
ghost use Rattle.price_ascent.specs.Bound.{AreNodePrices, ArePricedAt, IsBoundAt, IsMostProved};
ghost use Rattle.price_ascent.specs.Found.{IsFound};
ghost use Rattle.search_terms.specs.Proven.{IsProvedCount, ProveAsMuch};

use crate::pace::Pace;
use crate::pricing::Sight;
use crate::slopes::Slopes;
use crate::trail::FoundRoute;
use label_pricing::{most_proved, worths_decide};
use node_limits::Limits;
use potentials::{Prices, proves};
use std::alloc::{AllocError, Global};
use std::collections::VecDeque;
use std::mem;

/// How much work an ascent may do: so many rounds, steps that begin with this length, in 1/256 of what would close the
/// gap, and are shortened by a block of so many rounds that doesn't raise the bound, and so many looks at what a team can
/// earn from a place at a minute, though one round at least.
#[derive(Clone, Copy, Debug)]
pub struct Effort {
    pub rounds: u32,
    pub step: u32,
    pub block: u32,
    pub looks: u64,
}

/// Where an ascent came to: the best prices that it saw, their bound in 1/D of a task with the worths of all teams, the
/// greatest number of tasks that they prove unassigned, the rounds that it made, and the routes of its last rounds.
#[derive(Drop)]
pub struct Ascended {
    pub prices: Prices,
    pub bound: i128,
    pub proved: u32,
    pub rounds: u32,
    pub routes: VecDeque<FoundRoute>,
}

// Of prices with their bounds those with the greater one prove as much.
fn greater_bounds_prove_more()
    ensures more { (n : NodeLimits) (p q : NodePrices) (b c : ℤ) → IsInstance n.instance
        → ArePricedAt n p b → ArePricedAt n q c
        → b ≤ℤ c → ProveAsMuch n q p }
    ensures count { (n : NodeLimits) (p : NodePrices) (b : ℤ) (l : ℕ) → IsInstance n.instance
        → ArePricedAt n p b → IsMostProved n b l
        → IsProvedCount n p l }
{
    worths_decide();
}

// Puts the prices with the greater bound first, and gives their bound. The bounds are those of the first and of the second.
fn keep_better(best: &mut Prices, trial: &mut Prices, most: i128, bound: i128) -> i128
    ensures best { (n : NodeLimits) → ArePricedAt n best.old most → ArePricedAt n trial.old bound
        → ArePricedAt n best.new result }
    ensures trial { (n : NodeLimits) → ArePricedAt n best.old most → ArePricedAt n trial.old bound
        → AreNodePrices n trial.new }
    ensures rises { most ≤ℤ result }
{
    if bound > most {
        mem::swap(best, trial);
        return bound;
    }
    most
}

// As many rounds as the effort allows, and one at least if it allows any.
fn rounds_within(effort: Effort, looks_of_round: u64) -> u32
    ensures { result ≤ effort.rounds }
{
    let affordable = effort.looks / looks_of_round.max(1);
    let most = affordable.max(1).min(u64::from(u32::MAX)) as u32;
    effort.rounds.min(most)
}

/// Prices of the node that prove at least what `start` proves, found by a deflected subgradient method whose steps aim at
/// the bound of `goal` unassigned tasks (P. M. Camerini, L. Fratta, F. Maffioli, On improving relaxation methods by
/// modified gradient techniques, 1975). It ends where the bound proves the goal, where its steps have come to nothing, or
/// with its work. AllocError where there is no memory.
pub fn ascend(
    alloc: Global,
    limits: &Limits<'_>,
    start: Prices,
    goal: u32,
    effort: Effort,
) -> Result<Ascended, AllocError>
    requires prices { ArePricesOf limits.now.limits start }
    requires required { IsOnRequired limits.now.limits start }
    ensures prices { IfOk result (λ a. ArePricesOf limits.now.limits a.prices) }
    ensures required { IfOk result (λ a. IsOnRequired limits.now.limits a.prices) }
    ensures bound { IfOk result (λ a. IsBoundAt limits.now.limits a.prices a.bound) }
    ensures proved { IfOk result (λ a. IsProvedCount limits.now.limits a.prices a.proved) }
    ensures as_much { IfOk result (λ a. ProveAsMuch limits.now.limits a.prices start) }
    ensures rounds { IfOk result (λ a. a.rounds ≤ effort.rounds) }
    ensures routes { IfOk result (λ a. All (IsFound limits.now.limits) a.routes.items) }
{
    greater_bounds_prove_more();
    let mut sight = Sight::reserve(alloc, limits)?;
    let mut slopes = Slopes::at(alloc, limits, &start)?;
    let mut trial = Prices::zero(alloc, limits)?;
    let mut bound = sight.look(alloc, limits, &start, 0, &mut slopes)?;
    let mut best = start;
    let mut most = bound;
    let mut pace = Pace::new(effort.step, effort.block);
    pace.take(bound);
    let mut made = 0;
    let rounds = rounds_within(effort, sight.looks_of_round(limits));
    for round in 0..rounds {
        if proves(most, goal) || pace.step() == 0 {
            break;
        }
        slopes.climb(round == 0, pace.length(goal, bound));
        slopes.write(limits, &mut trial);
        bound = sight.look(alloc, limits, &trial, round + 1, &mut slopes)?;
        pace.take(bound);
        most = keep_better(&mut best, &mut trial, most, bound);
        made = round + 1;
    }
    Ok(Ascended {
        prices: best,
        bound: most,
        proved: most_proved(limits, most),
        rounds: made,
        routes: sight.into_routes(),
    })
}
