// The lines of the cause of a split: `why`, and `share` and `spare` of a loose one. A cause is judged in the node before its
// split.
ghost use Rattle.std.specs.Prelude.{◌≡◌, ◌≤◌, ◌<◌, ◌+◌, ◌^◌, ◌↔◌, ℕ, pos, List, length, IsTrue};
ghost use Rattle.crew_num.specs.Exact.{IsExact, IsOverflow};
ghost use Rattle.crew_terms.specs.Instance.{Instance as DayInstance};
ghost use Rattle.share_terms.specs.Shares.{IsRouteIn};
ghost use Rattle.dossier_terms.specs.Causes.{Cause, Shares, Overflowed, Spent};
ghost use Rattle.dossier_terms.specs.Reading.{Above, parts_due};
ghost use Rattle.dossier_terms.specs.Ranges.{IsNowWord, IsSpareLine};
ghost use Rattle.cert_checker.specs.Due.{Awaits, IsAtNode, IsAwaited, IsInLoose, IsLooseRead, IsStep, MaySplit, Tells, loose_site, split_site};
ghost use Rattle.cert_checker.specs.Rules.{after_fault, after_loose, after_share, after_spare, after_spent};

use crate::due::{Due, LooseDraft, Step, TreeDraft};
use crate::node::first_child;
use cert_format::{ShareLine, WhyLine, fault_is_refused, read_share, read_spare, read_why};
use crew_instance::unassigned;
use crew_num::{Op, Overflow, add, mul, sub};
use crew_terms::Choice;
use dossier_terms::Reason;
use field_table::LineWords;
use line_in::WideNumbers;
use node_limits::Limits;
use route_check::{RouteVerdict, check_route};
use route_terms::Route;
use std::alloc::Global;

/// The same number, with a sign.
fn signed(n: u128) -> i128
    requires { n < 2 ^ 127 }
    ensures { result ≡ pos n }
{
    n as i128
}

/// The exact result of an operation, or that it leaves i128.
fn exactly(op: Op, a: i128, b: i128) -> Result<i128, Overflow>
    ensures { IsExact result op a b }
{
    match op {
        Op::Add => add(a, b),
        Op::Sub => sub(a, b),
        Op::Mul => mul(a, b),
    }
}

/// Whether the exact result of the operation leaves i128.
fn overflows(fault: Overflow) -> bool
    ensures { IsTrue result ↔ IsOverflow fault }
{
    exactly(fault.op, fault.a, fault.b).is_err()
}

/// Whether it is a route of a team in the node.
fn is_route_in(limits: &Limits<'_>, route: &Route<'_>) -> bool
    ensures { IsTrue result ↔ IsRouteIn limits.now.limits route.now }
{
    (route.team() as usize) < limits.instance().teams()
        && check_route(limits, route.team(), route.visits()) == RouteVerdict::Legal
}

/// What is due where so many shares are left, of columns from `from` on.
fn due_shares(tree: Box<TreeDraft>, more: u64, from: u64) -> Due
    ensures { (fs : List Above) (read : Shares) → IsInLoose tree.value read fs
        → Awaits result (parts_due (loose_site tree.value fs) tree.value.loose.now read more from) }
{
    if more > 0 {
        let more = more - 1;
        Due::Share { tree, more, from }
    } else {
        Due::Spare { tree }
    }
}

/// What is said behind the numbers of a line `why loose`, which has so many shares.
fn begin_loose(mut tree: Box<TreeDraft>, loose: LooseDraft, count: u64) -> Result<Step, Reason>
    requires now { IsNowWord (length tree.value.draft.value.base.instance.tasks) loose.now }
    requires some { 1 ≤ loose.whole }
    requires few { loose.whole < 2 ^ 127 }
    ensures { (fs : List Above) → MaySplit tree.value loose.choice fs
        → Tells (after_loose (split_site tree.value fs loose.choice) loose.now loose.whole count)
        result }
{
    if loose.now < unassigned(&tree.draft.plan) {
        return Err(Reason::Cause);
    }
    let held = &mut *tree;
    held.loose = loose;
    held.sums.begin();
    Ok(Step::More(due_shares(tree, count, 0)))
}

/// What is said behind the numbers of a line `why overflow`.
fn fault_step(
    alloc: Global,
    tree: Box<TreeDraft>,
    choice: Choice,
    now: u32,
    fault: Overflow,
) -> Result<Step, Reason>
    requires { (fs : List Above) × MaySplit tree.value choice fs }
    ensures { (fs : List Above) → IsAtNode tree.value fs
        → Tells (after_fault (split_site tree.value fs choice) now fault) result }
{
    if now < unassigned(&tree.draft.plan) {
        return Err(Reason::Cause);
    }
    if !overflows(fault) {
        return Err(Reason::Cause);
    }
    Ok(Step::More(first_child(alloc, tree, choice, false)))
}

/// What is said behind the number of a line `why spent`.
fn spent_step(alloc: Global, tree: Box<TreeDraft>, choice: Choice, now: u32) -> Result<Step, Reason>
    requires { (fs : List Above) × MaySplit tree.value choice fs }
    ensures { (fs : List Above) → IsAtNode tree.value fs
        → Tells (after_spent (split_site tree.value fs choice) now) result }
{
    if now < unassigned(&tree.draft.plan) {
        return Err(Reason::Cause);
    }
    Ok(Step::More(first_child(alloc, tree, choice, false)))
}

/// The line `why` of a node that is split so.
pub fn why_line(
    alloc: Global,
    tree: Box<TreeDraft>,
    choice: Choice,
    words: LineWords<'_>,
) -> Result<Step, Reason>
    requires { IsAwaited (Due.Why tree choice) }
    ensures { IsStep (Due.Why tree choice) words.entry result }
{
    fault_is_refused();
    let tasks = tree.draft.base.instance.tasks() as u32;
    match read_why(words, tasks)? {
        WhyLine::None => Ok(Step::More(first_child(alloc, tree, choice, false))),
        WhyLine::Loose { now, whole, count } => {
            let loose = LooseDraft { choice, now, whole };
            begin_loose(tree, loose, count)
        }
        WhyLine::Overflow { now, fault } => fault_step(alloc, tree, choice, now, fault),
        WhyLine::Spent { now } => spent_step(alloc, tree, choice, now),
    }
}

/// What is said behind the numbers of a line `share`, where so many more are to come.
fn take_share(
    alloc: Global,
    mut tree: Box<TreeDraft>,
    more: u64,
    column: u64,
    parts: u128,
) -> Result<Step, Reason>
    requires loose { IsLooseRead tree.value }
    requires column { column < length tree.value.draft.value.pool }
    requires next { column + 1 < 2 ^ 64 }
    requires parts { parts ≤ tree.value.loose.whole }
    ensures { (fs : List Above) (read : Shares) → IsInLoose tree.value read fs
        → Tells (after_share (loose_site tree.value fs) tree.value.loose.now read more
        (record { column = column; parts = parts })) result }
{
    let held = &mut *tree;
    let draft = &mut *held.draft;
    let limits = Limits::wake(&draft.base.instance, draft.limits.take(alloc));
    let route = draft.pool.route(column as usize);
    if !is_route_in(&limits, route) {
        return Err(Reason::Cause);
    }
    let whole = held.loose.whole;
    held.sums.add(route, parts, whole);
    draft.limits = limits.rest();
    Ok(Step::More(due_shares(tree, more, column + 1)))
}

/// A line `share`.
pub fn share_line(
    alloc: Global,
    tree: Box<TreeDraft>,
    more: u64,
    from: u64,
    words: LineWords<'_>,
) -> Result<Step, Reason>
    requires { IsAwaited (Due.Share tree more from) }
    ensures { IsStep (Due.Share tree more from) words.entry result }
{
    fault_is_refused();
    let columns = tree.draft.pool.len() as u64;
    let whole = signed(tree.loose.whole);
    let ShareLine { column, parts } = read_share(words, columns, whole)?;
    if column < from {
        return Err(Reason::Cause);
    }
    take_share(alloc, tree, more, column, parts)
}

/// What is said behind the numbers of a line `spare`.
fn judge_spare(
    alloc: Global,
    mut tree: Box<TreeDraft>,
    shares: &WideNumbers<'_>,
) -> Result<Step, Reason>
    requires loose { IsLooseRead tree.value }
    requires numbers { IsSpareLine (length tree.value.draft.value.base.instance.tasks)
        tree.value.loose.whole shares.now }
    ensures { (fs : List Above) (read : Shares) → IsInLoose tree.value read fs
        → Tells (after_spare (loose_site tree.value fs) tree.value.loose.now read shares.now) result }
{
    let held = &mut *tree;
    let draft = &mut *held.draft;
    let limits = Limits::wake(&draft.base.instance, draft.limits.take(alloc));
    let loose = held.loose;
    if !held.sums.is_loose(&limits, loose.now, shares, loose.whole) {
        return Err(Reason::Cause);
    }
    draft.limits = limits.rest();
    Ok(Step::More(first_child(alloc, tree, loose.choice, true)))
}

/// The line `spare`.
pub fn spare_line(alloc: Global, tree: Box<TreeDraft>, words: LineWords<'_>) -> Result<Step, Reason>
    requires { IsAwaited (Due.Spare tree) }
    ensures { IsStep (Due.Spare tree) words.entry result }
{
    fault_is_refused();
    let tasks = tree.draft.base.instance.tasks() as u32;
    let whole = signed(tree.loose.whole);
    let shares = read_spare(words, tasks, whole)?;
    judge_spare(alloc, tree, &shares)
}
