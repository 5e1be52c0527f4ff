// The columns that are routes in the limits of a node.
ghost use Rattle.std.specs.Prelude.{◌≡◌, ◌<◌, ◌↔◌, IfOk, IsTrue, OnOk, length, map};
ghost use Rattle.crew_terms.specs.Limits.{pair_of, tasks_in, teams_in};
ghost use Rattle.search_terms.specs.Earned.{AreLegalOf};
ghost use Rattle.share_terms.specs.Shares.{IsRouteIn};
ghost use Rattle.column_arena.specs.Columns.{AreNumbersWith, column_of};
ghost use Rattle.column_arena.specs.Legal.{AreRuledOut, IsLegalColumn};

use crate::columns::Columns;
use crew_terms::Pair;
use node_limits::{Limits, is_forbidden};
use route_check::{RouteVerdict, check_route};
use std::alloc::{AllocError, Global};

// Whether the column is a route in the limits.
fn is_legal<C: Columns>(limits: &Limits<'_>, columns: &C, id: usize) -> bool
    requires { id < length (C.columns columns.now) }
    ensures { IsTrue result ↔ IsRouteIn limits.now.limits (column_of (C.columns columns.now) id) }
{
    let team = columns.team(id);
    if team as usize >= limits.instance().teams() {
        return false;
    }
    match check_route(limits, team, columns.visits(id)) {
        RouteVerdict::Legal => true,
        RouteVerdict::BadVisit(_) | RouteVerdict::BadStep(_) => false,
    }
}

// Rules out the columns of a forbidden pair.
fn rule_out<C: Columns>(limits: &Limits<'_>, columns: &C, k: u32, j: u32, marks: &mut Vec<bool>)
    requires team { k < teams_in limits.now.limits }
    requires task { j < tasks_in limits.now.limits }
    requires forbidden { pair_of limits.now.limits k j ≡ Pair.Forbidden }
    requires marks { AreRuledOut limits.now.limits (C.columns columns.now) marks.old.items }
    ensures { AreRuledOut limits.now.limits (C.columns columns.now) marks.new.items }
{
    // No instance has more teams and tasks than columns can name.
    let _ = limits.instance();
    for id in columns.using(k, j) {
        marks[*id] = true;
    }
}

// A mark for each column, which only columns of forbidden pairs have.
fn ruled_out<C: Columns>(
    alloc: Global,
    limits: &Limits<'_>,
    columns: &C,
) -> Result<Vec<bool>, AllocError>
    ensures { IfOk result (λ marks. AreRuledOut limits.now.limits
        (C.columns columns.now) marks.items) }
{
    let mut marks = vec![in alloc; false; columns.len()]?;
    for k in 0..limits.instance().teams() as u32 {
        for j in 0..limits.instance().tasks() as u32 {
            if is_forbidden(limits.pair(k, j)) {
                rule_out(limits, columns, k, j, &mut marks);
            }
        }
    }
    Ok(marks)
}

// Whether the column is a route in the limits; one with a mark isn't tested.
fn is_found<C: Columns>(limits: &Limits<'_>, columns: &C, marks: &[bool], id: usize) -> bool
    requires marks { AreRuledOut limits.now.limits (C.columns columns.now) marks.now }
    requires known { id < length (C.columns columns.now) }
    ensures { IsTrue result ↔ IsRouteIn limits.now.limits (column_of (C.columns columns.now) id) }
{
    if marks[id] {
        return false;
    }
    is_legal(limits, columns, id)
}

/// Makes `out` the numbers, rising, of the columns that are routes in the limits. Columns of forbidden pairs are passed
/// over, and the others tested. Where memory runs out, `out` is open.
pub fn legal_in<C: Columns>(
    limits: &Limits<'_>,
    columns: &C,
    out: &mut Vec<usize>,
) -> Result<(), AllocError>
    ensures numbers { OnOk result (AreNumbersWith
        (IsLegalColumn limits.now.limits (C.columns columns.now)) out.new.items) }
    ensures routes { OnOk result (AreLegalOf limits.now.limits (C.columns columns.now)
        (map (column_of (C.columns columns.now)) out.new.items)) }
{
    let marks = ruled_out(*out.allocator(), limits, columns)?;
    out.clear();
    for id in 0..columns.len() {
        if !is_found(limits, columns, &marks, id) {
            continue;
        }
        out.push(id)?;
    }
    Ok(())
}
