// The linear program of a node, solved in rounds in which its classes are priced.
ghost use Rattle.std.specs.Prelude.{All, IfOk};
ghost use Rattle.crew_terms.specs.Limits.{Limits as NodeLimits};
ghost use Rattle.potentials.specs.Prices.{ArePricesOf};
ghost use Rattle.split_uses.specs.Permitted.{IsPermittedSpan};

use crate::basis::Basis;
use crate::effort::Effort;
use crate::looks::{BestRoute, Seen, look};
use crate::mixed::mix;
use crate::numbers::{WHOLE, wide};
use crate::pool::Pool;
use crate::program::Program;
use crate::rest::RestPrices;
use node_limits::Limits;
use potentials::{D, Prices, proves};
use price_ascent::find_firsts;
use split_uses::Span;
use std::alloc::{AllocError, Global};

// So many parts of the prices that are tried first are the best ones.
const FIRST_SHARE: u32 = 160;

// Where no more parts than these are the best ones, none are next.
const LEAST_SHARE: u32 = 40;

// A gap of so small a part of a task is none.
const NO_GAP: i128 = 1024;

// Where no prices prove the goal, a gap of so small a part of a task is small enough.
const SMALL_GAP: i128 = 16;

/// What a node is handed: prices, routes of the pool by their numbers, and a basis.
#[derive(Drop)]
pub(crate) struct Handed {
    pub(crate) prices: RestPrices,
    pub(crate) routes: Vec<usize>,
    pub(crate) basis: Basis,
}

/// Prices, and their bound in 1/D of a task.
#[derive(Drop)]
pub(crate) struct Bounded {
    pub(crate) prices: Prices,
    pub(crate) bound: i128,
}

/// What came of a node's program: its best prices, the visits of the routes with a share, of which `ONE` parts make a whole, the
/// routes that cost little, by their numbers, and the basis.
#[derive(Drop)]
pub(crate) struct Solved {
    pub(crate) best: Bounded,
    pub(crate) spans: Vec<Span>,
    pub(crate) routes: Vec<usize>,
    pub(crate) basis: Basis,
}

// The share of the best prices in the next round, after one in which so many routes were new; None where it was the last.
fn next_share(share: u32, added: u32) -> Option<u32> {
    if added > 0 {
        return Some(share);
    }
    if share == 0 {
        return None;
    }
    Some(if share <= LEAST_SHARE { 0 } else { share / 2 })
}

// Whether no better prices are looked for, where the program has this value: there are none, or hardly any, and none prove the
// goal.
fn is_near(value: i64, bound: i128, goal: u32) -> bool {
    let gap = (wide(value, D as i64) / WHOLE).saturating_sub(bound);
    let least = i128::from(goal.saturating_sub(1)) * WHOLE;
    let is_vain = i128::from(value) <= least + WHOLE / NO_GAP;
    gap <= i128::from(D) / NO_GAP || (is_vain && gap <= i128::from(D) / SMALL_GAP)
}

// The better of two, the first where they are as good.
fn better(best: Bounded, other: Bounded) -> Bounded
    ensures { (n : NodeLimits) → ArePricesOf n best.prices → ArePricesOf n other.prices
        → ArePricesOf n result.prices }
{
    if other.bound > best.bound {
        return other;
    }
    best
}

// Offers the routes, or those that gain by the duals. Answers to how many classes.
fn offer_all(
    program: &mut Program,
    limits: &Limits<'_>,
    pool: &mut Pool,
    routes: &[BestRoute],
    must_gain: bool,
) -> Result<u32, AllocError> {
    let mut offered = 0u32;
    for route in routes {
        if !route.visits.is_empty() {
            let at = pool.add(route.team, &route.visits)?;
            offered = offered.saturating_add(program.offer(limits, pool, at, must_gain)?);
        }
    }
    Ok(offered)
}

// The node's program, with what the node is handed.
fn begun(
    alloc: Global,
    limits: &Limits<'_>,
    pool: &Pool,
    handed: &Handed,
) -> Result<Program, AllocError> {
    let mut program = Program::open(alloc, limits)?;
    for route in &handed.routes {
        program.offer(limits, pool, *route, false)?;
    }
    program.begin_with(limits, pool, &handed.basis)?;
    Ok(program)
}

/// What a round came to: the best prices, and their share in the next one; None where it was the last.
#[derive(Drop)]
struct Round {
    best: Bounded,
    next: Option<u32>,
}

// Looks at prices of which so many parts are the best ones, and the others those of the duals, and offers the routes that gain by
// the duals.
fn look_between(
    alloc: Global,
    limits: &Limits<'_>,
    pool: &mut Pool,
    program: &mut Program,
    best: Bounded,
    share: u32,
    goal: u32,
) -> Result<Round, AllocError>
    requires { ArePricesOf limits.now.limits best.prices }
    ensures { IfOk result (λ r. ArePricesOf limits.now.limits r.best.prices) }
{
    let duals = &program.simplex.duals;
    let prices = mix(alloc, limits, &program.rows, &best.prices, duals, share)?;
    let Seen { bound, routes } = look(alloc, limits, &program.rows, &prices)?;
    let added = offer_all(program, limits, pool, &routes, true)?;
    let best = better(best, Bounded { prices, bound });
    let next = if is_near(program.value(), best.bound, goal) {
        None
    } else {
        next_share(share, added)
    };
    Ok(Round { best, next })
}

// The best prices after rounds in which prices between the best ones and the duals are looked at; until they prove the goal, or
// hardly any are better, or the work is done.
fn search(
    alloc: Global,
    limits: &Limits<'_>,
    pool: &mut Pool,
    program: &mut Program,
    first: Bounded,
    goal: u32,
    effort: Effort,
) -> Result<Bounded, AllocError>
    requires { ArePricesOf limits.now.limits first.prices }
    ensures { IfOk result (λ b. ArePricesOf limits.now.limits b.prices) }
{
    let mut best = first;
    let mut share = FIRST_SHARE;
    let mut left = effort.pivots;
    for _ in 0..effort.rounds {
        let solved = program.simplex.solve(left)?;
        left = left.saturating_sub(solved.pivots);
        if !solved.is_optimal || proves(best.bound, goal) {
            return Ok(best);
        }
        let round = look_between(alloc, limits, pool, program, best, share, goal)?;
        best = round.best;
        let Some(next) = round.next else {
            return Ok(best);
        };
        share = next;
    }
    Ok(best)
}

/// Solves the program of the node until its best prices prove the goal, or it comes near to its optimum, or its work is done.
pub(crate) fn solve(
    alloc: Global,
    limits: &Limits<'_>,
    pool: &mut Pool,
    handed: &Handed,
    goal: u32,
    effort: Effort,
) -> Result<Solved, AllocError>
    ensures prices { IfOk result (λ s. ArePricesOf limits.now.limits s.best.prices) }
    ensures spans { IfOk result (λ s. All (IsPermittedSpan limits.now.limits) s.spans.items) }
{
    let mut program = begun(alloc, limits, pool, handed)?;
    let prices = handed.prices.at(alloc, limits)?;
    let Seen { bound, routes } = look(alloc, limits, &program.rows, &prices)?;
    let mut best = Bounded { prices, bound };
    if !proves(bound, goal) {
        offer_all(&mut program, limits, pool, &routes, false)?;
        best = search(alloc, limits, pool, &mut program, best, goal, effort)?;
    }
    let firsts = find_firsts(alloc, limits)?;
    Ok(Solved {
        best,
        spans: program.spans(limits, pool)?,
        routes: program.routes()?,
        basis: program.basis(firsts)?,
    })
}
