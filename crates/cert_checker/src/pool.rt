// The lines of a pool: `pool`, and each `route`.
ghost use Rattle.std.specs.Prelude.{◌≡◌, ℕ, pos, IfOk};
ghost use Rattle.dossier_terms.specs.Reading.{routes_due};
ghost use Rattle.dossier_terms.specs.BodyTable.{begin};
ghost use Rattle.cert_checker.specs.Due.{Awaits, IsAwaited, IsBegun, IsStepWithRoom, draft_of};
ghost use Rattle.cert_checker.specs.Rules.{TellsRoute};

use crate::due::{BegunDossier, Due, Step};
use crate::rooms::{TreeRoom, root_for};
use cert_format::{PoolLine, RouteLine, fault_is_refused, read_pool, read_route};
use crew_instance::Plan;
use dossier_terms::Reason;
use field_table::LineWords;
use head_check::Base;
use line_in::Refusal;
use node_limits::Limits;
use route_pool::{Pool, PoolVerdict};
use std::alloc::{AllocError, Global};

/// A number that is not negative.
fn natural(n: i64) -> u64
    requires { (k : ℕ) × (n ≡ pos k) }
    ensures { n ≡ pos result }
{
    n as u64
}

/// What is due where so many routes are to come.
fn due_routes(draft: Box<BegunDossier>, more: u64) -> Due
    requires { IsBegun draft.value }
    ensures { Awaits result (routes_due (draft_of draft.value) more) }
{
    if more > 0 {
        Due::Route {
            draft,
            more: more - 1,
        }
    } else {
        Due::Plan { draft }
    }
}

/// What is due behind the line `pool`, where it has these numbers. No memory is taken by them.
fn begin_pool(
    alloc: Global,
    room: &mut Option<TreeRoom>,
    base: Base,
    kept: u64,
    routes: u64,
) -> Result<Due, AllocError>
    ensures { IfOk result (λ due. Awaits due
        (routes_due (begin base.form base.instance base.nodes kept) routes)) }
{
    let limits = root_for(alloc, room, &base.instance)?;
    let plan = Plan::empty(alloc, base.instance.tasks())?;
    let draft = BegunDossier {
        base,
        kept,
        limits,
        pool: Pool::new(alloc),
        plan,
        bound: 0,
    };
    let draft = Box::new(alloc, draft)?;
    Ok(due_routes(draft, routes))
}

/// The line `pool`.
pub fn pool_line(
    alloc: Global,
    room: &mut Option<TreeRoom>,
    base: Box<Base>,
    words: LineWords<'_>,
) -> Result<Step, Refusal>
    ensures { IsStepWithRoom (Due.Pool base) words.entry result }
{
    fault_is_refused();
    let PoolLine { kept, routes } = read_pool(words)?;
    if kept > routes {
        return Err(Refusal::No(Reason::Pool));
    }
    let base = Box::into_inner(base);
    let due = begin_pool(alloc, room, base, natural(kept), natural(routes))?;
    Ok(Step::More(due))
}

/// What is said behind a route, of which the pool says this, where so many more are to come.
fn judge_route(draft: Box<BegunDossier>, more: u64, verdict: PoolVerdict) -> Result<Step, Reason>
    requires { IsBegun draft.value }
    ensures { TellsRoute draft.value more verdict result }
{
    match verdict {
        PoolVerdict::Added => Ok(Step::More(due_routes(draft, more))),
        PoolVerdict::NotRoute | PoolVerdict::Repeated => Err(Reason::Pool),
    }
}

/// A line `route`.
pub fn route_line(
    alloc: Global,
    mut draft: Box<BegunDossier>,
    more: u64,
    words: LineWords<'_>,
) -> Result<Step, Refusal>
    requires { IsAwaited (Due.Route draft more) }
    ensures { IsStepWithRoom (Due.Route draft more) words.entry result }
{
    fault_is_refused();
    let held = &mut *draft;
    let teams = held.base.instance.teams() as u32;
    let tasks = held.base.instance.tasks() as u32;
    let RouteLine { team, visits } = read_route(words, teams, tasks)?;
    let route = route_pool::read_route(alloc, team, &visits)?;
    let limits = Limits::wake(&held.base.instance, held.limits.take(alloc));
    let verdict = held.pool.add(&limits, route)?;
    held.limits = limits.rest();
    Ok(judge_route(draft, more, verdict)?)
}
