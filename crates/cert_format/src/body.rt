// The lines of a pool, a plan and a tree, but those of its nodes.
ghost use Rattle.cert_format.specs.Typed.{ReadsAs, pool_kind, route_kind, plan_kind, job_kind, end_kind};

use crate::kinds::{Expect, LineKind};
use crate::typed::{JobLine, PlanLine, PoolLine, RouteLine};
use crew_terms::{MOST_NODES, TreeCounts};
use field_table::{LineWords, fields};
use line_in::LineFault;
use line_in::numbers::{read_below, read_visits};
use line_in::ranges::MINUTE;
use line_in::shape::{has_pairs, has_shape, has_shape_from};

/// Reads the line `pool`: how many routes are kept, and how many there are, or tells its first fault.
pub fn read_pool(words: LineWords<'_>) -> Result<PoolLine, LineFault>
    ensures { ReadsAs Expect.Pool pool_kind words.entry result }
{
    if !has_shape(&words, b"pool", 2) {
        return Err(LineFault::Shape);
    }
    fields!(
        &words, kept: Number(0, i64::MAX), routes: Number(0, i64::MAX);
        else fault => LineFault::Number
    );
    Ok(PoolLine { kept, routes })
}

/// Reads a line `route` of an instance with so many teams and tasks, or tells its first fault.
pub fn read_route<'a>(
    words: LineWords<'a>,
    teams: u32,
    tasks: u32,
) -> Result<RouteLine<'a>, LineFault>
    ensures { ReadsAs (Expect.Route teams tasks) route_kind words.entry result }
{
    if !has_pairs(&words, b"route") {
        return Err(LineFault::Shape);
    }
    let last = teams as i64 - 1;
    fields!(&words, team: Number(0, last); else fault => LineFault::Number);
    let visits = read_visits(words, 2, tasks)?;
    Ok(RouteLine {
        team: team as u32,
        visits,
    })
}

/// Reads the line `plan` of an instance with so many tasks: how many are unassigned, and the bound, or
/// tells its first fault.
pub fn read_plan(words: LineWords<'_>, tasks: u32) -> Result<PlanLine, LineFault>
    ensures { ReadsAs (Expect.Plan tasks) plan_kind words.entry result }
{
    if !has_shape(&words, b"plan", 2) {
        return Err(LineFault::Shape);
    }
    let most = tasks as i64;
    fields!(
        &words, unassigned: Number(0, most), bound: Number(0, most);
        else fault => LineFault::Number
    );
    Ok(PlanLine {
        unassigned: unassigned as u32,
        bound: bound as u32,
    })
}

/// Reads a line `do` of an instance with so many teams and tasks, or tells its first fault.
pub fn read_job<'a>(words: LineWords<'a>, teams: u32, tasks: u32) -> Result<JobLine<'a>, LineFault>
    ensures { ReadsAs (Expect.Job teams tasks) job_kind words.entry result }
{
    if !has_shape_from(&words, b"do", 2) {
        return Err(LineFault::Shape);
    }
    let last = tasks as i64 - 1;
    fields!(&words, task: Number(0, last), start: MINUTE; else fault => LineFault::Number);
    let teams = read_below(words, 3, teams)?;
    Ok(JobLine {
        task: task as u32,
        start: start as u32,
        teams,
    })
}

/// Reads the line `tree`: its splits, closed leaves, other leaves and greatest depth, or tells its first fault.
pub fn read_tree(words: LineWords<'_>) -> Result<TreeCounts, LineFault>
    ensures { ReadsAs Expect.Tree LineKind.Tree words.entry result }
{
    if !has_shape(&words, b"tree", 4) {
        return Err(LineFault::Shape);
    }
    fields!(
        &words, splits: Number(0, MOST_NODES as i64), closed: Number(0, MOST_NODES as i64),
        left_open: Number(0, MOST_NODES as i64 + 1), depth: Number(0, MOST_NODES as i64);
        else fault => LineFault::Number
    );
    Ok(TreeCounts {
        splits: splits as u32,
        closed: closed as u32,
        left_open: left_open as u32,
        depth: depth as u32,
    })
}

/// Reads the line `end`, or tells its first fault.
pub fn read_end(words: LineWords<'_>) -> Result<(), LineFault>
    ensures { ReadsAs Expect.End end_kind words.entry result }
{
    if !has_shape(&words, b"end", 0) {
        return Err(LineFault::Shape);
    }
    Ok(())
}
