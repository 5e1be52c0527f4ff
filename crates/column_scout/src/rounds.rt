// Rounds in which teams are priced, and routes that earn more are offered.
ghost use Rattle.std.specs.Prelude.{◌≤◌, IfOk};
ghost use Rattle.crew_terms.specs.Limits.{Limits as NodeLimits};
ghost use Rattle.column_scout.specs.Scouted.{IsSeen};

use crate::effort::Effort;
use crate::mixed::mix;
use crate::offers::Offers;
use node_limits::Limits;
use price_ascent::{Ascended, Effort as AscentEffort, ascend};
use std::alloc::{AllocError, Global};

// So many parts of the prices that are tried first are the best ones.
const FIRST_SHARE: u32 = 160;

// Where no more parts than these are the best ones, none are next.
const LEAST_SHARE: u32 = 40;

/// No round of an ascent: it only looks at the prices with which it begins.
pub(crate) const ONE_LOOK: AscentEffort = AscentEffort {
    rounds: 0,
    step: 0,
    block: 0,
    looks: 0,
};

/// What the rounds came to: the best prices, and how many pivots and rounds were made.
#[derive(Drop)]
pub(crate) struct Searched {
    pub(crate) best: Ascended,
    pub(crate) pivots: u32,
    pub(crate) rounds: u32,
}

// The share of the best prices in the next round, after one in which so many routes were new; None where it was the last.
fn next_share(share: u32, added: u32) -> Option<u32> {
    if added > 0 {
        return Some(share);
    }
    if share == 0 {
        return None;
    }
    Some(if share <= LEAST_SHARE { 0 } else { share / 2 })
}

// The better of two, the first where they are as good.
fn better(best: Ascended, seen: Ascended) -> Ascended
    ensures seen { (n : NodeLimits) → IsSeen n best → IsSeen n seen → IsSeen n result }
    ensures more { best.proved ≤ result.proved }
{
    if seen.bound > best.bound && seen.proved >= best.proved {
        return seen;
    }
    best
}

// Looks at prices between the best ones and the duals.
fn look(
    alloc: Global,
    limits: &Limits<'_>,
    offers: &Offers,
    best: &Ascended,
    now: u32,
    share: u32,
) -> Result<Ascended, AllocError>
    requires { IsSeen limits.now.limits best.now }
    ensures { IfOk result (IsSeen limits.now.limits) }
{
    let duals = &offers.simplex.duals;
    let prices = mix(alloc, limits, &offers.rows, &best.prices, duals, share)?;
    ascend(alloc, limits, prices, now, ONE_LOOK)
}

/// Pivots to the optimum over the offered routes, and looks at prices between the best ones and its duals: those that prove
/// more are the best ones then, and routes that earn more at the duals are offered too; round by round, until there are
/// none, or the prices prove `now`, or the work is done. Mixing prices with the best ones keeps them from swinging
/// (P. Wentges, Weighted Dantzig-Wolfe decomposition for linear mixed-integer programming, 1997).
pub(crate) fn search(
    alloc: Global,
    limits: &Limits<'_>,
    offers: &mut Offers,
    first: Ascended,
    now: u32,
    effort: Effort,
) -> Result<Searched, AllocError>
    requires { IsSeen limits.now.limits first }
    ensures seen { IfOk result (λ r. IsSeen limits.now.limits r.best) }
    ensures more { IfOk result (λ r. first.proved ≤ r.best.proved) }
    ensures pivots { IfOk result (λ r. r.pivots ≤ effort.pivots) }
    ensures rounds { IfOk result (λ r. r.rounds ≤ effort.rounds) }
{
    let mut best = first;
    let mut pivots = 0;
    let mut made = 0;
    let mut share = FIRST_SHARE;
    for round in 0..effort.rounds {
        let solved = offers.simplex.solve(effort.pivots - pivots)?;
        pivots += solved.pivots;
        if !solved.is_optimal || best.proved >= now {
            break;
        }
        let seen = look(alloc, limits, offers, &best, now, share)?;
        let added = offers.offer_better(&seen.routes)?;
        best = better(best, seen);
        made = round + 1;
        let Some(next) = next_share(share, added) else {
            break;
        };
        share = next;
    }
    Ok(Searched {
        best,
        pivots,
        rounds: made,
    })
}
