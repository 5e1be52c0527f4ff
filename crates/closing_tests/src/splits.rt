// The uses by which a node is split, picked by prices and from what a solution makes in part.
ghost use Rattle.std.specs.Prelude.{All, IfOk, IsTrue};
ghost use Rattle.crew_terms.specs.Leaf.{IsPrice};
ghost use Rattle.potentials.specs.Prices.{ArePricesOf};
ghost use Rattle.split_uses.specs.Permitted.{IsPermittedSpan};

use crate::choices::tied;
use crew_fixtures::{hardly_overlapping, joint_task};
use crew_terms::{Pair, Visit};
use node_limits::Limits;
use potentials::Prices;
use split_uses::{Span, Use, add_spans, split_uses};
use std::alloc::{Alloc, AllocError, Global};
use std::process::Abort;
use std::test::Fail;

/// A team, a task, the earliest and the latest minute at which its route could begin it, and how many parts it does.
type Parts = (u32, u32, u32, u32, i128);

/// A team, a task and a minute.
type Begun = (u32, u32, u32);

/// The spans with these parts.
fn spans_of(alloc: Global, list: &[Parts]) -> Result<Vec<Span>, AllocError> {
    let mut spans = Vec::new(alloc);
    for (team, task, earliest, latest, num) in list {
        spans.push(Span {
            one: Use {
                team: *team,
                task: *task,
                start: *earliest,
                num: *num,
            },
            earliest: *earliest,
            latest: *latest,
        })?;
    }
    Ok(spans)
}

/// Whether the team of the span may begin the task at the minute.
fn is_permitted(limits: &Limits<'_>, span: &Span) -> bool
    ensures { IsTrue result → IsPermittedSpan limits.now.limits span.now }
{
    let instance = limits.instance();
    let Use {
        team,
        task,
        start,
        ..
    } = span.one;
    (team as usize) < instance.teams()
        && (task as usize) < instance.tasks()
        && limits.may_visit(team, task, start)
}

/// Whether it may of each span.
fn are_permitted(limits: &Limits<'_>, spans: &[Span]) -> bool
    ensures { IsTrue result → All (IsPermittedSpan limits.now.limits) spans.now }
{
    for span in spans {
        if !is_permitted(limits, span) {
            return false;
        }
    }
    true
}

/// A tenth of a task.
const TENTH: i64 = 84_000_000;

/// What a task's price is where it is worth so many tenths of a task for each of its teams.
fn price_of(tenths: &[u32], j: u32) -> i64
    ensures { IsPrice result }
{
    match tenths.get(j as usize) {
        Some(tenth) => i64::from((*tenth).min(10)) * TENTH,
        None => 0,
    }
}

/// Prices of so many tenths of a task.
fn prices_of(alloc: Global, limits: &Limits<'_>, tenths: &[u32]) -> Result<Prices, AllocError>
    ensures prices { IfOk result (ArePricesOf limits.now.limits) }
{
    let mut prices = Prices::zero(alloc, limits)?;
    for j in 0..limits.instance().tasks() as u32 {
        prices.set_pi(j, price_of(tenths, j));
    }
    Ok(prices)
}

/// The teams, tasks and minutes of uses.
fn begun(alloc: Global, uses: &[Use]) -> Result<Vec<Begun>, AllocError> {
    let mut begun = Vec::new(alloc);
    for one in uses {
        begun.push((one.team, one.task, one.start))?;
    }
    Ok(begun)
}

/// Asserts what is picked at prices of so many tenths, of spans of which so many parts make a whole.
fn picks(
    rt: &(impl Abort + Alloc<A = Global>),
    limits: &Limits<'_>,
    tenths: &[u32],
    whole: i128,
    list: &[Parts],
    wanted: &[Begun],
) -> Result<(), Fail> {
    let spans = spans_of(rt.alloc(), list)?;
    assert!(rt; are_permitted(limits, &spans));
    let prices = prices_of(rt.alloc(), limits, tenths)?;
    let picked = split_uses(rt.alloc(), limits, &prices, &spans, whole)?;
    assert!(rt;
        begun(rt.alloc(), &picked)?.as_slice() == wanted,
        "{list:?}"
    );
    Ok(())
}

/// Spans, and what is picked of them where 100 parts make a whole.
type Row = (&'static [Parts], &'static [Begun]);

/// Asserts it of each row of the table, at these prices.
fn picks_each(
    rt: &(impl Abort + Alloc<A = Global>),
    limits: &Limits<'_>,
    tenths: &[u32],
    table: &[Row],
) -> Result<(), Fail> {
    for (spans, wanted) in table {
        picks(rt, limits, tenths, 100, spans, wanted)?;
    }
    Ok(())
}

/// Halves of the first task, by routes that could begin it from 07:00 to 07:05 and from 07:10 to 07:20.
const EARLY: Parts = (0, 0, 420, 425, 50);

const LATE: Parts = (1, 0, 430, 440, 50);

/// A cut falls in the middle between two intervals. Intervals that overlap are not cut, and of alike teams the first is taken. A
/// half weighs more than less or more than it.
const WINDOWS: &[Row] = &[
    (&[], &[]),
    (&[EARLY, LATE], &[(0, 0, 427), (0, 0, 428)]),
    (&[EARLY, (1, 0, 425, 440, 50)], &[(0, 0, 420)]),
    (&[(1, 0, 421, 440, 50)], &[(0, 0, 421)]),
    (
        &[(1, 0, 421, 440, 90), (1, 1, 422, 430, 60)],
        &[(0, 1, 422)],
    ),
    (
        &[EARLY, (0, 1, 420, 420, 10), LATE, (0, 1, 440, 440, 90)],
        &[(0, 0, 427), (0, 0, 428)],
    ),
];

/// A task of price 0 is not split while another has a price.
const PRICES: &[Row] = &[
    (&[EARLY, LATE, (1, 1, 420, 450, 4)], &[(0, 1, 420)]),
    (&[EARLY, (1, 1, 420, 450, 4)], &[(0, 1, 420)]),
    (&[EARLY, LATE], &[(0, 0, 427), (0, 0, 428)]),
    (&[(0, 0, 420, 425, 50)], &[]),
];

#[test]
fn picks_what_decides_the_most(rt: HostRuntime) -> Result<(), Fail> {
    let day = tied(rt.alloc())?;
    let root = Limits::root(rt.alloc(), &day)?;
    picks_each(&rt, &root, &[10, 10], WINDOWS)?;
    picks_each(&rt, &root, &[0, 5], PRICES)
}

/// Where the second team is required at the second task: its pair is decided, and another pair of the task is taken only where
/// nothing else is.
const REQUIRED: &[Row] = &[
    (&[(1, 1, 420, 430, 50)], &[]),
    (&[(0, 1, 420, 430, 50)], &[(0, 1, 420)]),
    (
        &[(0, 1, 420, 430, 50), (0, 0, 421, 430, 10)],
        &[(0, 0, 421)],
    ),
];

#[test]
fn picks_no_pair_that_is_decided(rt: HostRuntime) -> Result<(), Fail> {
    let day = tied(rt.alloc())?;
    let mut limits = Limits::root(rt.alloc(), &day)?;
    limits.reserve(1)?;
    assert!(rt; limits.pair(1, 1) == Pair::Free);
    limits.set_pair(1, 1, Pair::Required);
    picks_each(&rt, &limits, &[10, 10], REQUIRED)
}

/// A task of two teams that can't begin it at one minute is cut between them where both do it whole. Where each does half of it, a
/// pair decides more.
#[test]
fn cuts_between_teams(rt: HostRuntime) -> Result<(), Fail> {
    let day = hardly_overlapping(rt.alloc(), 480)?;
    let root = Limits::root(rt.alloc(), &day)?;
    let wholes = [(0, 0, 420, 420, 100), (1, 0, 450, 450, 100)];
    let cut = [(0, 0, 420), (1, 0, 450)];
    picks(&rt, &root, &[5], 100, &wholes, &cut)?;
    let halves = [(0, 0, 420, 420, 50), (1, 0, 450, 450, 50)];
    picks(&rt, &root, &[5], 100, &halves, &[(0, 0, 420)])
}

#[test]
fn picks_by_wholes_of_any_size(rt: HostRuntime) -> Result<(), Fail> {
    let day = tied(rt.alloc())?;
    let root = Limits::root(rt.alloc(), &day)?;
    let prices = [10, 10];
    for whole in [2, 1 << 40, i128::MAX] {
        let half = (0, 0, 420, 430, whole / 2);
        let rest = (1, 1, 420, 430, whole);
        picks(&rt, &root, &prices, whole, &[rest, half], &[(0, 0, 420)])?;
    }
    let most = (0, 0, 420, 430, i128::MAX);
    picks(&rt, &root, &prices, 2, &[most, most], &[(0, 0, 420)])?;
    picks(&rt, &root, &prices, 0, &[most], &[(0, 0, 420)])
}

/// The earliest and latest minutes of a route of the first team through both tasks.
#[test]
fn finds_the_minutes_of_a_route(rt: HostRuntime) -> Result<(), Fail> {
    let day = joint_task(rt.alloc())?;
    let root = Limits::root(rt.alloc(), &day)?;
    let mut spans = Vec::new(rt.alloc());
    let visit = Visit {
        task: 0,
        start: 420,
    };
    assert!(rt; root.instance().teams() == 2 && root.instance().tasks() == 1);
    assert!(rt; root.may_visit(0, 0, 420));
    add_spans(rt.alloc(), &mut spans, &root, 0, &[visit], 3)?;
    assert!(rt; spans.as_slice() == spans_of(rt.alloc(), &[(0, 0, 420, 420, 3)])?.as_slice());
    Ok(())
}
