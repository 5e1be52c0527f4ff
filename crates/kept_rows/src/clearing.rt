// A pivot: each row but one is replaced.

ghost use Rattle.std.specs.Prelude.{◌≡◌, ◌<◌, ◌-◌, length, All, MatchResult, OnErr};
ghost use Rattle.search_terms.specs.Rows.{number};
ghost use Rattle.kept_rows.specs.Clearing.{AreCleared, CanClear, IsClearingFault};
ghost use Rattle.kept_rows.specs.Columns.{AreColumns, IsKeptRow, IsKnownIn, full, full_rows};
ghost use Rattle.kept_rows.specs.Replaced.{AllFit, AreWithin, CanReplace, IsMost, IsNewRow};
ghost use Rattle.kept_rows.specs.Replacement.{IsFirstFault, IsLowest};
ghost use Rattle.kept_rows.specs.Table.{rows_of};

use crate::bounds::{Reach, is_small, most};
use crate::columns::{Column, entry};
use crate::replacing::replace;
use crew_num::{Overflow, cross};

/// Forms the numbers of the replacement at all columns, in order.
fn form_all(
    columns: &[Column],
    row: &[i128],
    pivot: &[i128],
    v: usize,
    p: i128,
    e: i128,
) -> Result<(), Overflow>
    requires known { All (IsKnownIn (length pivot.now)) columns.now }
    requires row { IsKeptRow (length pivot.now) columns.now row.now }
    requires pivot { IsKeptRow (length pivot.now) columns.now pivot.now }
    requires p { p ≡ number (full columns.now pivot.now) v }
    requires e { e ≡ number (full columns.now row.now) v }
    ensures { MatchResult result (λ _. AllFit columns.now pivot.now row.now p e)
        (IsFirstFault (full columns.now pivot.now) v (full columns.now row.now)) }
{
    for column in columns {
        let _number = cross(p, entry(row, column), e, entry(pivot, column))?;
    }
    Ok(())
}

/// Tests whether all steps of the replacement lie in i128, at all columns. `top` is what the pivot row's numbers are at most.
fn test(
    columns: &[Column],
    reach: Option<Reach>,
    row: &[i128],
    pivot: &[i128],
    v: usize,
    p: i128,
    e: i128,
    top: Option<u128>,
) -> Result<(), Overflow>
    requires known { All (IsKnownIn (length pivot.now)) columns.now }
    requires row { IsKeptRow (length pivot.now) columns.now row.now }
    requires pivot { IsKeptRow (length pivot.now) columns.now pivot.now }
    requires p { p ≡ number (full columns.now pivot.now) v }
    requires e { e ≡ number (full columns.now row.now) v }
    requires two { 1 < length pivot.now }
    requires reach { AreWithin (length pivot.now - 2) reach columns.now }
    requires top { IsMost columns.now pivot.now top }
    ensures { MatchResult result (λ _. AllFit columns.now pivot.now row.now p e)
        (IsFirstFault (full columns.now pivot.now) v (full columns.now row.now)) }
{
    if is_small(e, top) && is_small(p, most(columns, reach, row)) {
        return Ok(());
    }
    form_all(columns, row, pivot, v, p, e)
}

/// Replaces the row, whose basic variable is at the place `basic`. One that has 0 at the place v is left alone: it would be
/// multiplied by the pivot row's number there, p, and divided by it.
fn clear_row(
    columns: &[Column],
    reach: Option<Reach>,
    row: &mut [i128],
    pivot: &[i128],
    v: usize,
    basic: usize,
    p: i128,
    top: Option<u128>,
) -> Result<(), Overflow>
    requires can { CanReplace (length pivot.now) columns.now pivot.now row.old v basic }
    requires p { p ≡ number (full columns.now pivot.now) v }
    requires lowest { IsLowest (full columns.now row.old) }
    requires two { 1 < length pivot.now }
    requires reach { AreWithin (length pivot.now - 2) reach columns.now }
    requires top { IsMost columns.now pivot.now top }
    ensures replaced { MatchResult result (λ _. IsNewRow (length pivot.now) columns.now pivot.now row.old row.new v)
        (IsFirstFault (full columns.now pivot.now) v (full columns.now row.old)) }
    ensures stays { OnErr result (row.new ≡ row.old) }
{
    let e = entry(row, &columns[v]);
    if e == 0 {
        return Ok(());
    }
    test(columns, reach, row, pivot, v, p, e, top)?;
    replace(columns, row, pivot, v, basic, p, e);
    Ok(())
}

/// Replaces each row but the row h, of which the pivot row is a copy.
pub fn clear(
    columns: &[Column],
    reach: Option<Reach>,
    rows: &mut [Vec<i128>],
    basis: &[usize],
    pivot: &[i128],
    h: usize,
    v: usize,
) -> Result<(), Overflow>
    requires can { CanClear (full_rows columns.now rows.old) basis.now
        (full columns.now pivot.now) h v }
    requires columns { AreColumns (length pivot.now) columns.now }
    requires rows { All (IsKeptRow (length pivot.now) columns.now) (rows_of rows.old) }
    requires pivot { IsKeptRow (length pivot.now) columns.now pivot.now }
    requires two { 1 < length pivot.now }
    requires reach { AreWithin (length pivot.now - 2) reach columns.now }
    ensures cleared { MatchResult result (λ _. AreCleared (full columns.now pivot.now) h v
        (full_rows columns.now rows.old) (full_rows columns.now rows.new))
        (IsClearingFault (full columns.now pivot.now) h v (full_rows columns.now rows.old)) }
    ensures kept { All (IsKeptRow (length pivot.now) columns.now) (rows_of rows.new) }
{
    let p = entry(pivot, &columns[v]);
    let top = most(columns, reach, pivot);
    for i in 0..rows.len() {
        if i != h {
            clear_row(columns, reach, &mut rows[i], pivot, v, basis[i], p, top)?;
        }
    }
    Ok(())
}
