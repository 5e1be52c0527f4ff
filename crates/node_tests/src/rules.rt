// Prices and potentials: the local rules of a team, and bounds.
ghost use Rattle.std.specs.Prelude.{◌≤◌, IfOk};
ghost use Rattle.crew_terms.specs.Leaf.{IsPrice};
ghost use Rattle.potentials.specs.Prices.{ArePricesOf};
ghost use Rattle.potentials.specs.Table.{IsTableOf};

use crate::asserts::{same, same_at};
use crew_fixtures::{FixtureFault, far_gates, gate_instance, name, task, team, two_at_once};
use crew_instance::Instance;
use crew_terms::{Task, Team};
use node_limits::Limits;
use potentials::LocalVerdict::{Holds, Low, Worth};
use potentials::{D, LocalVerdict, Prices, Room, Table, bound, holds_locally, local, proves};
use std::alloc::{AllocError, Global};
use std::process::Abort;
use std::test::Fail;
use std::time::{CpuClock, Duration};

/// One task.
const TASK: i64 = D as i64;

/// The same price for each task.
fn each_at(alloc: Global, limits: &Limits<'_>, price: i64) -> Result<Prices, AllocError>
    requires { IsPrice price }
    ensures { IfOk result (ArePricesOf limits.now.limits) }
{
    let mut prices = Prices::zero(alloc, limits)?;
    for i in 0..limits.instance().tasks() as u32 {
        prices.set_pi(i, price);
    }
    Ok(prices)
}

/// The table with these potentials.
fn table(
    rt: &impl Abort,
    alloc: Global,
    instance: &Instance,
    potentials: &[(u32, u32, i64)],
) -> Result<Table, AllocError>
    ensures { IfOk result (IsTableOf instance.now) }
{
    let mut table = Table::reserve(alloc, instance)?;
    for (i, t, v) in potentials {
        assert!(rt; (*i as usize) < instance.tasks());
        let task = instance.task(*i);
        assert!(rt; task.earliest <= *t && *t <= task.latest);
        table.set(*i, *t, *v);
    }
    Ok(table)
}

/// What is said of team 0 at the root, where each task has the price.
fn verdict(
    rt: &impl Abort,
    alloc: Global,
    instance: &Instance,
    price: i64,
    potentials: &[(u32, u32, i64)],
    worth: i64,
) -> Result<LocalVerdict, Fail>
    requires { IsPrice price }
{
    let root = Limits::root(alloc, instance)?;
    let prices = each_at(alloc, &root, price)?;
    let table = table(rt, alloc, instance, potentials)?;
    assert!(rt; 0 < instance.teams());
    let mut room = Room::reserve(alloc, instance)?;
    let said = local(&root, 0, &prices, &table, &mut room, worth);
    same(
        rt,
        &holds_locally(&root, 0, &prices, &table, &mut room, worth),
        &(said == Holds),
    );
    Ok(said)
}

#[test]
fn tells_the_first_rule_that_fails(rt: HostRuntime) -> Result<(), Fail> {
    let day = two_at_once(rt.alloc())?;
    for (first, second, worth, want) in [
        (TASK, TASK, TASK, Holds),
        (TASK, TASK - 1, TASK, Low { task: 1 }),
        (TASK - 1, TASK - 1, TASK, Low { task: 0 }),
        (TASK, TASK, TASK - 1, Worth),
        (TASK + 1, TASK, TASK, Worth),
        (i64::MAX, i64::MAX, i64::MAX, Holds),
        (i64::MIN, TASK, TASK, Low { task: 0 }),
    ] {
        let potentials = [(0, 420, first), (1, 420, second)];
        let told = verdict(&rt, rt.alloc(), &day, TASK, &potentials, worth)?;
        same_at(&rt, &told, &want, &(potentials, worth));
    }
    Ok(())
}

#[test]
fn counts_what_can_follow(rt: HostRuntime) -> Result<(), Fail> {
    let day = far_gates(rt.alloc())?;
    let (two, three, most) = (2 * TASK, 3 * TASK, i64::MAX);
    for (first, second, third, worth, want) in [
        (three, two, TASK, three, Holds),
        (two, two, TASK, three, Low { task: 0 }),
        (two, TASK, TASK, three, Low { task: 1 }),
        (most, most, TASK, most, Low { task: 0 }),
        (most, most - TASK, TASK, most, Holds),
    ] {
        let potentials = [(0, 420, first), (1, 440, second), (2, 460, third)];
        let told = verdict(&rt, rt.alloc(), &day, TASK, &potentials, worth)?;
        same_at(&rt, &told, &want, &(potentials, worth));
    }
    Ok(())
}

/// A task at the gate for ten minutes, which may begin at one of three minutes.
fn three_minutes(called: &[u8], opens: u32) -> Result<Task, FixtureFault>
    requires { opens ≤ 1000 }
{
    Ok(Task {
        earliest: opens,
        latest: opens + 2,
        minutes: 10,
        ..task(called)?
    })
}

/// A team, and two tasks at one gate: the first from 420 to 422, for ten minutes, and the second from `opens` on.
fn one_after(alloc: Global, opens: u32) -> Result<Instance, FixtureFault>
    requires { opens ≤ 1000 }
{
    let tasks = [three_minutes(b"A", 420)?, three_minutes(b"B", opens)?];
    gate_instance(alloc, &[team(b"T1")?], &tasks)
}

/// Whether the potentials of the first of the two tasks are high enough, visit by visit.
fn is_covered(price: i64, first: &[i64; 3], opens: u32, second: &[i64; 3]) -> bool
    requires { opens ≤ 1000 }
{
    for (a, here) in first.iter().enumerate() {
        for (b, next) in second.iter().enumerate() {
            let follows = 420 + a + 10 <= opens as usize + b;
            if follows && i128::from(*here) < i128::from(price) + i128::from(*next) {
                return false;
            }
        }
    }
    first.iter().all(|here| price <= *here)
}

/// What the rules say of the two tasks.
fn plain(price: i64, first: &[i64; 3], opens: u32, second: &[i64; 3], worth: i64) -> LocalVerdict
    requires { opens ≤ 1000 }
{
    if !is_covered(price, first, opens, second) {
        Low { task: 0 }
    } else if !second.iter().all(|here| price <= *here) {
        Low { task: 1 }
    } else if worth < 0 || !first.iter().chain(second).all(|here| *here <= worth) {
        Worth
    } else {
        Holds
    }
}

/// One of the numbers from -1 to 2.
fn digit(code: u32, place: u32) -> i64
    requires { place ≤ 5 }
{
    i64::from((code >> (2 * place)) & 3) - 1
}

#[test]
fn follows_the_rules_visit_by_visit(rt: HostRuntime) -> Result<(), Fail> {
    for (price, opens) in [(-1, 430), (0, 429), (0, 430), (0, 431), (1, 430)] {
        let day = one_after(rt.alloc(), opens)?;
        for code in 0..4096 {
            let first = [digit(code, 0), digit(code, 1), digit(code, 2)];
            let second = [digit(code, 3), digit(code, 4), digit(code, 5)];
            let potentials = [
                (0, 420, first[0]),
                (0, 421, first[1]),
                (0, 422, first[2]),
                (1, opens, second[0]),
                (1, opens + 1, second[1]),
                (1, opens + 2, second[2]),
            ];
            let told = verdict(&rt, rt.alloc(), &day, price, &potentials, 1)?;
            let want = plain(price, &first, opens, &second, 1);
            same_at(&rt, &told, &want, &(price, potentials));
        }
    }
    Ok(())
}

#[test]
fn bounds_what_is_unassigned(rt: HostRuntime) -> Result<(), Fail> {
    let day = two_at_once(rt.alloc())?;
    let root = Limits::root(rt.alloc(), &day)?;
    let prices = each_at(rt.alloc(), &root, TASK)?;
    let sum = bound(&root, &prices, &[TASK]);
    same(&rt, &sum, &i128::from(D));
    same(
        &rt,
        &[proves(sum, 0), proves(sum, 1), proves(sum, 2)],
        &[true, true, false],
    );
    same(
        &rt,
        &bound(&root, &prices, &[i64::MAX]),
        &(2 * i128::from(D) - i128::from(i64::MAX)),
    );
    same(&rt, &(!proves(0, 1) && proves(1, 1)), &true);
    Ok(())
}

#[test]
fn keeps_what_is_set(rt: HostRuntime) -> Result<(), Fail> {
    let day = two_at_once(rt.alloc())?;
    let root = Limits::root(rt.alloc(), &day)?;
    let mut prices = each_at(rt.alloc(), &root, 7)?;
    prices.set_rho(0, 1, -5);
    same(
        &rt,
        &[
            prices.pi(0),
            prices.pi(1),
            prices.rho(0, 0),
            prices.rho(0, 1),
        ],
        &[7, 7, 0, -5],
    );
    same(&rt, &[prices.reward(0, 0), prices.reward(0, 1)], &[7, 2]);
    Ok(())
}

/// A team and 400 tasks at one gate, each of which may begin from minute 400 to `latest`.
fn greatest_day(alloc: Global, latest: u32) -> Result<Instance, FixtureFault> {
    let like = Task {
        earliest: 400,
        latest,
        minutes: 1,
        ..task(b"A")?
    };
    let mut tasks = Vec::new(alloc);
    for first in b'A'..b'U' {
        for second in b'A'..b'U' {
            tasks.push(Task {
                name: name(&[first, second])?,
                ..like
            })?;
        }
    }
    let team = Team {
        until: 2000,
        ..team(b"T1")?
    };
    gate_instance(alloc, &[team], &tasks)
}

/// The processor time that the rules of one team take on such a day, where all of them hold.
fn time_of_rules(
    rt: &(impl Abort + Alloc<A = Global> + CpuClock),
    latest: u32,
) -> Result<Duration, Fail> {
    let day = greatest_day(rt.alloc(), latest)?;
    let root = Limits::root(rt.alloc(), &day)?;
    let prices = Prices::zero(rt.alloc(), &root)?;
    let table = Table::reserve(rt.alloc(), &day)?;
    let mut room = Room::reserve(rt.alloc(), &day)?;
    assert!(rt; 0 < day.teams());
    let start = rt.thread_cpu_time()?;
    same(
        rt,
        &holds_locally(&root, 0, &prices, &table, &mut room, 0),
        &true,
    );
    Ok(rt.thread_cpu_time()?.saturating_sub(start))
}

#[test]
fn takes_time_that_grows_with_the_width(rt: HostRuntime) -> Result<(), Fail> {
    let narrow = time_of_rules(&rt, 490)?;
    let wide = time_of_rules(&rt, 1120)?;
    println!(rt; "400 tasks, windows of 91 minutes: {narrow:?}, of 721: {wide:?}")?;
    Ok(())
}
