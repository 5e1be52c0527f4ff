// The linear program of a node over routes of a pool.
ghost use Rattle.std.specs.Prelude.{◌<◌, All, IfOk, IsTrue, OnOk};
ghost use Rattle.crew_terms.specs.Limits.{IsRoute, teams_in};
ghost use Rattle.split_uses.specs.Permitted.{IsPermittedSpan};

use crate::numbers::{ONE, WHOLE, nearest, wide};
use crate::pool::Pool;
use crate::rows::{Class, Rows};
use crate::simplex::Simplex;
use crate::variables::Name;
use crew_terms::Visit;
use node_limits::Limits;
use route_check::{RouteVerdict, check_route};
use split_uses::{Span, add_spans};
use std::alloc::{AllocError, Global};

// A route that gains no more than this, by the duals, gains nothing.
const LEAST_GAIN: i64 = ONE >> 20;

// A share of a route that is smaller counts for nothing.
const LEAST_SHARE: i64 = ONE >> 12;

// A route is handed on to the parts of a node where its reduced cost is no greater.
const MOST_COST: i64 = ONE / 16;

/// The rows of a node, and the simplex method over the shares of the routes that are offered to its classes.
#[derive(Drop)]
pub(crate) struct Program {
    pub(crate) alloc: Global,
    pub(crate) rows: Rows,
    pub(crate) simplex: Simplex,
}

/// Whether the visits are a route of the team in the node.
fn is_route(limits: &Limits<'_>, team: u32, visits: &[Visit]) -> bool
    ensures team { IsTrue result → team < teams_in limits.now.limits }
    ensures route { IsTrue result → IsRoute limits.now.limits team visits.now }
{
    if team as usize >= limits.instance().teams() {
        return false;
    }
    match check_route(limits, team, visits) {
        RouteVerdict::Legal => true,
        RouteVerdict::BadVisit(_) | RouteVerdict::BadStep(_) => false,
    }
}

// Adds the spans of the visits, if they are a route of the team.
fn add_route(
    alloc: Global,
    limits: &Limits<'_>,
    team: u32,
    visits: &[Visit],
    share: i64,
    spans: &mut Vec<Span>,
) -> Result<(), AllocError>
    requires { All (IsPermittedSpan limits.now.limits) spans.old.items }
    ensures { OnOk result (All (IsPermittedSpan limits.now.limits) spans.new.items) }
{
    if is_route(limits, team, visits) {
        return add_spans(alloc, spans, limits, team, visits, i128::from(share));
    }
    Ok(())
}

impl Program {
    /// The node's program without routes; AllocError where there is no memory.
    pub(crate) fn open(alloc: Global, limits: &Limits<'_>) -> Result<Program, AllocError> {
        let rows = Rows::of(alloc, limits)?;
        let simplex = Simplex::open(alloc, limits, &rows)?;
        Ok(Program {
            alloc,
            rows,
            simplex,
        })
    }

    // Offers the route to the class.
    fn offer_to(
        &mut self,
        route: usize,
        class: usize,
        team: u32,
        visits: &[Visit],
    ) -> Result<(), AllocError> {
        let rows = self.rows.of_route(self.alloc, class, team, visits)?;
        self.simplex.variables.add_share(route, team, rows)
    }

    // What a route of the class gains by the duals.
    fn gain(&self, class: usize, team: u32, visits: &[Visit]) -> i64 {
        let duals = &self.simplex.duals;
        let mut gain = dual(duals, class);
        for visit in visits {
            gain = gain.saturating_add(dual(duals, self.rows.of_task(visit.task)));
            if let Some(row) = self.rows.find_pair(team, visit.task) {
                gain = gain.saturating_add(dual(duals, row));
            }
        }
        gain
    }

    /// Offers the route of the pool to each class that may make it. Answers to how many.
    pub(crate) fn offer(
        &mut self,
        limits: &Limits<'_>,
        pool: &Pool,
        route: usize,
        must_gain: bool,
    ) -> Result<u32, AllocError> {
        let Some(found) = pool.route(route) else {
            return Ok(0);
        };
        let mut offered = 0u32;
        for class in 0..self.rows.classes.len() {
            let Some(Class { first, .. }) = self.rows.classes.get(class).copied() else {
                break;
            };
            let gains = !must_gain || self.gain(class, first, found.visits()) > LEAST_GAIN;
            if pool.first_of(first) == found.team()
                && gains
                && is_route(limits, first, found.visits())
            {
                self.offer_to(route, class, first, found.visits())?;
                offered = offered.saturating_add(1);
            }
        }
        Ok(offered)
    }

    /// The routes that are basic or cost little at the duals, by their numbers.
    pub(crate) fn routes(&self) -> Result<Vec<usize>, AllocError> {
        let mut routes = Vec::new(self.alloc);
        for variable in &self.simplex.variables.list {
            if let Name::Share { route, .. } = variable.name {
                if variable.is_basic || variable.reduced_cost(&self.simplex.duals) <= MOST_COST {
                    routes.push(route)?;
                }
            }
        }
        routes.sort()?;
        distinct(self.alloc, &routes)
    }

    /// What is left unassigned, in parts of which `ONE` make a task.
    pub(crate) fn value(&self) -> i64 {
        let mut sum = 0i128;
        for line in &self.simplex.lines {
            if let Some(variable) = self.simplex.variables.list.get(line.basic) {
                sum = sum.saturating_add(wide(line.value, variable.cost) / WHOLE);
            }
        }
        nearest(sum)
    }

    // Adds the spans of the route that the variable is of, if it is one in the node.
    fn add_spans_of(
        &self,
        limits: &Limits<'_>,
        pool: &Pool,
        name: Name,
        share: i64,
        spans: &mut Vec<Span>,
    ) -> Result<(), AllocError>
        requires { All (IsPermittedSpan limits.now.limits) spans.old.items }
        ensures { OnOk result (All (IsPermittedSpan limits.now.limits) spans.new.items) }
    {
        let Name::Share { route, team } = name else {
            return Ok(());
        };
        let Some(found) = pool.route(route) else {
            return Ok(());
        };
        if share <= LEAST_SHARE {
            return Ok(());
        }
        add_route(self.alloc, limits, team, found.visits(), share, spans)
    }

    /// The visits of the routes with a share, of which `ONE` parts make a whole.
    pub(crate) fn spans(&self, limits: &Limits<'_>, pool: &Pool) -> Result<Vec<Span>, AllocError>
        ensures { IfOk result (λ spans. All (IsPermittedSpan limits.now.limits) spans.items) }
    {
        let mut spans = Vec::new(self.alloc);
        for line in &self.simplex.lines {
            if let Some(variable) = self.simplex.variables.list.get(line.basic) {
                self.add_spans_of(limits, pool, variable.name, line.value, &mut spans)?;
            }
        }
        Ok(spans)
    }
}

// The numbers without repetition, where they are in order.
fn distinct(alloc: Global, numbers: &[usize]) -> Result<Vec<usize>, AllocError> {
    let mut list = Vec::new(alloc);
    let mut last = None;
    for number in numbers {
        if last != Some(*number) {
            list.push(*number)?;
        }
        last = Some(*number);
    }
    Ok(list)
}

/// The dual of a row.
pub(crate) fn dual(duals: &[i64], row: usize) -> i64 {
    duals.get(row).copied().unwrap_or(0)
}
