// Scripts of searches.
ghost use Rattle.std.specs.Prelude.{IfOk, IfSome};
ghost use Rattle.crew_terms.specs.Leaf.{IsOnRequired};
ghost use Rattle.potentials.specs.Prices.{ArePricesOf};
ghost use Rattle.search_terms.specs.Choice.{IsValidChoice};

use crate::basis::Basis;
use crate::effort::Effort;
use crate::places::is_valid;
use crate::pool::Pool;
use crate::rehearsing::{Guide, Rehearsal};
use crate::rest::RestPrices;
use crate::scenes::Tour;
use crate::solved::Handed;
use arrayvec::ArrayVec;
use column_arena::Columns;
use crew_instance::{Plan, fill_turns};
use crew_terms::{Choice, Visit};
use node_limits::{Branch, Limits};
use potentials::Prices;
use price_ascent::find_firsts;
use std::alloc::{AllocError, Global};

/// A tree of choices with prices at its leaves, which was rehearsed; and how many unassigned tasks its leaves are to prove.
#[derive(Drop)]
pub struct Script {
    guide: Guide,
    goal: u32,
}

impl Script {
    // The node to which the branches lead; None where they leave the script.
    fn node_at(&self, branches: &[Branch]) -> Option<usize> {
        let mut node = self.guide.root;
        for branch in branches {
            if self.guide.scenes.choice(node) != Some(branch.choice) {
                return None;
            }
            node = self.guide.scenes.child(node, branch.side)?;
        }
        Some(node)
    }

    /// The choice by which the script splits the node to which the branches lead from the root, where it does and the node, of which
    /// these are the limits, can be split so.
    pub fn choice_at(&self, limits: &Limits<'_>, branches: &[Branch]) -> Option<Choice>
        ensures { IfSome result (IsValidChoice limits.now.limits) }
    {
        let choice = self.guide.scenes.choice(self.node_at(branches)?)?;
        if is_valid(limits, choice) {
            Some(choice)
        } else {
            None
        }
    }

    /// The script's prices of the node to which the branches lead from the root, of which these are the limits; None where the
    /// script has no leaf there. AllocError where there is no memory.
    pub fn prices_at(
        &self,
        alloc: Global,
        limits: &Limits<'_>,
        branches: &[Branch],
    ) -> Result<Option<Prices>, AllocError>
        ensures prices { IfOk result (λ found. IfSome found (ArePricesOf limits.now.limits)) }
        ensures required { IfOk result (λ found. IfSome found (IsOnRequired limits.now.limits)) }
    {
        let Some(node) = self.node_at(branches) else {
            return Ok(None);
        };
        match self.guide.scenes.prices(node) {
            Some(rest) => Ok(Some(rest.at(alloc, limits)?)),
            None => Ok(None),
        }
    }

    /// How many splits it has; AllocError where there is no memory.
    pub fn splits(&self, alloc: Global) -> Result<u32, AllocError> {
        let scenes = &self.guide.scenes;
        let mut tour = Tour::from(alloc, self.guide.root, Vec::new(alloc))?;
        let mut splits = 0u32;
        for _ in 0..scenes.len() {
            let Some(node) = tour.next(scenes)? else {
                break;
            };
            if scenes.choice(node).is_some() {
                splits = splits.saturating_add(1);
            }
        }
        Ok(splits)
    }

    /// How many unassigned tasks its leaves are to prove.
    pub fn goal(&self) -> u32 {
        self.goal
    }
}

// The visits of the team in the plan, without the one at this place if there is one.
fn visits_of(
    alloc: Global,
    plan: &Plan,
    team: u32,
    without: usize,
) -> Result<Vec<Visit>, AllocError> {
    let mut branches = ArrayVec::new();
    fill_turns(plan, team, &mut branches);
    let mut visits = Vec::new(alloc);
    let mut at = 0usize;
    for branch in branches.as_slice() {
        if at != without {
            visits.push(Visit {
                task: branch.task,
                start: branch.start,
            })?;
        }
        at = at.saturating_add(1);
    }
    Ok(visits)
}

// Adds the route to the pool, if it has visits.
fn add(pool: &mut Pool, team: u32, visits: &[Visit]) -> Result<(), AllocError> {
    if !visits.is_empty() {
        pool.add(team, visits)?;
    }
    Ok(())
}

// Adds the routes of the plan, and those with one visit less.
fn add_plan(alloc: Global, pool: &mut Pool, plan: &Plan, teams: u32) -> Result<(), AllocError> {
    for team in 0..teams {
        let visits = visits_of(alloc, plan, team, usize::MAX)?;
        add(pool, team, &visits)?;
        for at in 0..visits.len() {
            let fewer = visits_of(alloc, plan, team, at)?;
            add(pool, team, &fewer)?;
        }
    }
    Ok(())
}

// Adds the columns.
fn add_columns<C: Columns>(pool: &mut Pool, columns: &C) -> Result<(), AllocError> {
    for id in 0..columns.len() {
        add(pool, columns.team(id), columns.visits(id))?;
    }
    Ok(())
}

// What the root is handed: its prices, and all routes of the pool.
fn handed(
    alloc: Global,
    limits: &Limits<'_>,
    pool: &Pool,
    prices: &Prices,
) -> Result<Handed, AllocError>
    requires { ArePricesOf limits.now.limits prices.now }
{
    Ok(Handed {
        prices: RestPrices::of(alloc, limits, prices)?,
        routes: pool.all()?,
        basis: Basis::none(alloc),
    })
}

/// What came of a rehearsal: the script of the highest level that was closed, and what is left of the effort.
#[derive(Drop)]
pub struct Rehearsed {
    pub script: Option<Script>,
    pub left: Effort,
}

/// Rehearses the tree of a search by linear programs over routes, at first the columns, the best plan's routes, and these with one
/// visit less: from the root, whose limits and best prices these are, which prove so many
/// unassigned tasks, level by level up to what the best plan leaves, `now`. There is no script
/// where no level was closed within the effort. AllocError where there is no memory.
pub fn rehearse<C: Columns>(
    alloc: Global,
    limits: &Limits<'_>,
    columns: &C,
    plan: &Plan,
    prices: &Prices,
    proved: u32,
    now: u32,
    effort: Effort,
) -> Result<Rehearsed, AllocError>
    requires { ArePricesOf limits.now.limits prices.now }
{
    let firsts = find_firsts(alloc, limits)?;
    let mut pool = Pool::none(alloc, firsts);
    add_plan(alloc, &mut pool, plan, limits.instance().teams() as u32)?;
    add_columns(&mut pool, columns)?;
    let root = handed(alloc, limits, &pool, prices)?;
    let mut script: Option<Script> = None;
    let mut left = effort;
    for goal in proved.saturating_add(1)..now.saturating_add(1) {
        let guide = match &script {
            Some(script) => Some(&script.guide),
            None => None,
        };
        let mut level = Rehearsal::new(alloc, limits.instance(), &root, guide, goal, left)?;
        let closed = level.rehearse(&mut pool)?;
        let (scenes, rest) = level.into_parts();
        left = rest;
        let Some(closed) = closed else {
            break;
        };
        script = Some(Script {
            guide: Guide {
                scenes,
                root: closed,
            },
            goal,
        });
    }
    Ok(Rehearsed { script, left })
}
