// What closes a decided node.
ghost use Rattle.std.specs.Prelude.{◌<◌, IfOk, length};
ghost use Rattle.crew_terms.specs.Limits.{tasks_in};
ghost use Rattle.leaf_close.specs.Closings.{closing_prices};
ghost use Rattle.potentials.specs.Prices.{ArePricesOf};
ghost use Rattle.search_terms.specs.Inside.{IsNode};

use crew_fixtures::{
    FixtureFault, gate_builder, gate_instance, gate_task, lacking_skill, team, two_at_once,
};
use crew_instance::Instance;
use crew_terms::{D, Pair, Task};
use leaf_close::{Closing, close_decided};
use node_limits::Limits;
use plan_check::Plan;
use potentials::{Prices, bound};
use search_laws::search_nodes;
use std::alloc::{AllocError, Global};
use std::process::Abort;
use std::test::Fail;

/// What one task costs.
const TASK: i64 = D as i64;

/// Forbids a free pair, or requires it.
fn decide(
    rt: &impl Abort,
    limits: &mut Limits<'_>,
    k: u32,
    j: u32,
    is_required: bool,
) -> Result<(), AllocError>
    requires { IsNode limits.old.limits }
    ensures { IsNode limits.new.limits }
{
    search_nodes();
    let instance = limits.instance();
    assert!(rt; (k as usize) < instance.teams() && (j as usize) < instance.tasks());
    assert!(rt; limits.pair(k, j) == Pair::Free);
    limits.reserve(1)?;
    if is_required {
        limits.set_pair(k, j, Pair::Required);
    } else {
        limits.set_pair(k, j, Pair::Forbidden);
    }
    Ok(())
}

/// The node below the root in which these pairs of a team and a task are forbidden, and these required.
fn node<'i>(
    rt: &impl Abort,
    alloc: Global,
    day: &'i Instance,
    forbidden: &[(u32, u32)],
    required: &[(u32, u32)],
) -> Result<Limits<'i>, AllocError>
    ensures { IfOk result (λ n. IsNode n.limits) }
{
    search_nodes();
    let _ = day.tasks();
    let mut limits = Limits::root(alloc, day)?;
    for (k, j) in forbidden {
        decide(rt, &mut limits, *k, *j, false)?;
    }
    for (k, j) in required {
        decide(rt, &mut limits, *k, *j, true)?;
    }
    Ok(limits)
}

/// Closes a decided node, where the best plan leaves so many tasks unassigned.
fn closed(
    rt: &impl Abort,
    alloc: Global,
    limits: &Limits<'_>,
    best: u32,
) -> Result<Closing, AllocError>
    requires { IsNode limits.now.limits }
    ensures { IfOk result (λ c. ArePricesOf limits.now.limits (closing_prices c)) }
{
    assert!(rt; limits.decided());
    assert!(rt; best as usize <= limits.instance().tasks());
    close_decided(alloc, limits, best)
}

/// Prices of a node: one for each task, and the same for each of these pairs of a team and a task. All others are 0.
#[derive(Drop)]
struct Wanted<'a> {
    tasks: &'a [i64],
    pairs: &'a [(u32, u32)],
    each: i64,
}

/// Whether the prices of the pairs with task `j` are these.
fn are_pairs_priced(limits: &Limits<'_>, prices: &Prices, j: u32, wanted: &Wanted<'_>) -> bool
    requires prices { ArePricesOf limits.now.limits prices.now }
    requires task { j < tasks_in limits.now.limits }
{
    for k in 0..limits.instance().teams() as u32 {
        let is_priced = wanted.pairs.contains(&(k, j));
        let price = if is_priced { wanted.each } else { 0 };
        if prices.rho(k, j) != price {
            return false;
        }
    }
    true
}

/// Whether the prices are these.
fn are_prices(limits: &Limits<'_>, prices: &Prices, wanted: &Wanted<'_>) -> bool
    requires { ArePricesOf limits.now.limits prices.now }
{
    let tasks = limits.instance().tasks();
    if wanted.tasks.len() != tasks {
        return false;
    }
    for j in 0..tasks as u32 {
        let is_priced = prices.pi(j) == wanted.tasks[j as usize];
        if !is_priced || !are_pairs_priced(limits, prices, j, wanted) {
            return false;
        }
    }
    true
}

/// Whether these prices close the node with no plan, where the best plan leaves `best` tasks unassigned.
fn is_closed_by(
    rt: &impl Abort,
    alloc: Global,
    limits: &Limits<'_>,
    best: u32,
    wanted: &Wanted<'_>,
) -> Result<bool, AllocError>
    requires { IsNode limits.now.limits }
{
    match closed(rt, alloc, limits, best)? {
        Closing::Prices(prices) => Ok(are_prices(limits, &prices, wanted)),
        Closing::Plan(_, _) => Ok(false),
    }
}

/// Whether these prices close the node with the plan in which team 0 begins task 0 at 07:00, and nothing else is done.
fn is_closed_by_first(
    rt: &impl Abort,
    alloc: Global,
    limits: &Limits<'_>,
    best: u32,
    wanted: &Wanted<'_>,
) -> Result<bool, AllocError>
    requires { IsNode limits.now.limits }
{
    match closed(rt, alloc, limits, best)? {
        Closing::Prices(_) => Ok(false),
        Closing::Plan(plan, prices) => Ok(
            is_first_alone(&plan) && are_prices(limits, &prices, wanted),
        ),
    }
}

/// Whether team 0 begins task 0 at 07:00, and the other of two tasks is unassigned.
fn is_first_alone(plan: &Plan) -> bool {
    if plan.len() != 2 {
        return false;
    }
    let is_begun = plan.start(0) == Some(420) && plan.teams(0) == [0].as_slice();
    is_begun && plan.start(1).is_none()
}

#[test]
fn closes_what_one_team_cannot_do_at_once(rt: HostRuntime) -> Result<(), Fail> {
    let day = two_at_once(rt.alloc())?;
    let both = [(0, 0), (0, 1)];
    let limits = node(&rt, rt.alloc(), &day, &[], &both)?;
    let wanted = Wanted {
        tasks: &[0, 0],
        pairs: &both,
        each: 1_680_000_000,
    };
    assert!(rt; is_closed_by(&rt, rt.alloc(), &limits, 1, &wanted)?);
    Ok(())
}

#[test]
fn proves_all_that_one_team_cannot_do(rt: HostRuntime) -> Result<(), Fail> {
    let day = two_at_once(rt.alloc())?;
    let limits = node(&rt, rt.alloc(), &day, &[], &[(0, 0), (0, 1)])?;
    assert!(rt; limits.instance().teams() == 1);
    // The team's best route does one of its two tasks.
    if let Closing::Prices(prices) = closed(&rt, rt.alloc(), &limits, 2)? {
        assert!(rt; bound(&limits, &prices, &[2 * TASK]) == 1_680_000_000);
        return Ok(());
    }
    Err("a plan")?
}

#[test]
fn hands_out_the_one_plan_where_it_is_better(rt: HostRuntime) -> Result<(), Fail> {
    let day = two_at_once(rt.alloc())?;
    let limits = node(&rt, rt.alloc(), &day, &[(0, 1)], &[(0, 0)])?;
    let wanted = Wanted {
        tasks: &[0, 840_000_000],
        pairs: &[],
        each: 0,
    };
    assert!(rt; is_closed_by_first(&rt, rt.alloc(), &limits, 2, &wanted)?);
    assert!(rt; is_closed_by(&rt, rt.alloc(), &limits, 1, &wanted)?);
    Ok(())
}

#[test]
fn keeps_frozen_jobs(rt: HostRuntime) -> Result<(), Fail> {
    let tasks = [gate_task(b"A", 1, 420)?, gate_task(b"B", 1, 420)?];
    let mut builder = gate_builder(rt.alloc(), &[team(b"T1")?], &tasks)?;
    builder.freeze(0, 420, &[0])?;
    let day = builder.finish()?;
    let limits = node(&rt, rt.alloc(), &day, &[(0, 1)], &[])?;
    let wanted = Wanted {
        tasks: &[0, TASK],
        pairs: &[],
        each: 0,
    };
    assert!(rt; is_closed_by_first(&rt, rt.alloc(), &limits, 2, &wanted)?);
    Ok(())
}

#[test]
fn shares_a_task_among_its_teams(rt: HostRuntime) -> Result<(), Fail> {
    let day = lacking_skill(rt.alloc())?;
    let limits = node(&rt, rt.alloc(), &day, &[(0, 0)], &[])?;
    let wanted = Wanted {
        tasks: &[TASK / 2],
        pairs: &[],
        each: 0,
    };
    assert!(rt; is_closed_by(&rt, rt.alloc(), &limits, 1, &wanted)?);
    Ok(())
}

#[test]
fn closes_what_a_team_may_not_begin(rt: HostRuntime) -> Result<(), Fail> {
    let day = lacking_skill(rt.alloc())?;
    let limits = node(&rt, rt.alloc(), &day, &[], &[(0, 0), (1, 0)])?;
    let wanted = Wanted {
        tasks: &[0],
        pairs: &[(1, 0)],
        each: TASK,
    };
    assert!(rt; is_closed_by(&rt, rt.alloc(), &limits, 1, &wanted)?);
    Ok(())
}

/// Two teams, and two tasks of ten minutes at the gate that need so many teams.
fn two_tasks(alloc: Global, needs: [u32; 2], starts: [u32; 2]) -> Result<Instance, FixtureFault> {
    let first = Task {
        teams: needs[0],
        ..gate_task(b"A", 1, starts[0])?
    };
    let second = Task {
        teams: needs[1],
        ..gate_task(b"B", 1, starts[1])?
    };
    gate_instance(alloc, &[team(b"T1")?, team(b"T2")?], &[first, second])
}

#[test]
fn tries_teams_before_tasks_and_the_lowest_first(rt: HostRuntime) -> Result<(), Fail> {
    let all = [(0, 0), (0, 1), (1, 0), (1, 1)];
    // Both teams would have to be at both tasks at once, and each task needs one of them.
    let day = two_tasks(rt.alloc(), [1, 1], [420, 420])?;
    let limits = node(&rt, rt.alloc(), &day, &[], &all)?;
    let stuck = Wanted {
        tasks: &[0, 0],
        pairs: &all[..2],
        each: 2 * TASK,
    };
    assert!(rt; is_closed_by(&rt, rt.alloc(), &limits, 2, &stuck)?);
    // Now each team can do both.
    let day = two_tasks(rt.alloc(), [1, 1], [420, 600])?;
    let limits = node(&rt, rt.alloc(), &day, &[], &all)?;
    let crowded = Wanted {
        tasks: &[-2 * TASK, 0],
        pairs: &[(0, 0), (1, 0)],
        each: 2 * TASK,
    };
    assert!(rt; is_closed_by(&rt, rt.alloc(), &limits, 2, &crowded)?);
    Ok(())
}

#[test]
fn tries_too_many_teams_before_too_few(rt: HostRuntime) -> Result<(), Fail> {
    let day = two_tasks(rt.alloc(), [2, 1], [420, 600])?;
    let limits = node(&rt, rt.alloc(), &day, &[(1, 0)], &[(0, 0), (0, 1), (1, 1)])?;
    let crowded = Wanted {
        tasks: &[0, -2 * TASK],
        pairs: &[(0, 1), (1, 1)],
        each: 2 * TASK,
    };
    assert!(rt; is_closed_by(&rt, rt.alloc(), &limits, 2, &crowded)?);
    let day = two_tasks(rt.alloc(), [2, 2], [420, 600])?;
    let limits = node(&rt, rt.alloc(), &day, &[(1, 0), (0, 1)], &[(0, 0), (1, 1)])?;
    let short = Wanted {
        tasks: &[2 * TASK, 0],
        pairs: &[],
        each: 0,
    };
    assert!(rt; is_closed_by(&rt, rt.alloc(), &limits, 2, &short)?);
    Ok(())
}
