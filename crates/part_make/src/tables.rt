// Tables of travel times, and the shortest ways in them.
ghost use Rattle.std.specs.Prelude.{◌≡◌, ◌≤◌, ◌<◌, length, IfOk};
ghost use Rattle.crew_instance.specs.Draft.{rows_of};
ghost use Rattle.crew_terms.specs.Instance.{minutes_between};
ghost use Rattle.crew_terms.specs.Rules.{AreTimes};
ghost use Rattle.crew_terms.specs.declared.TheConstants.{LAST_MINUTE};
ghost use Rattle.part_make.specs.Tables.{AreWaysBy, by_way_of, minutes_in, row_of, table_of};

use crew_instance::Instance;
use std::alloc::{AllocError, Global};

/// The minutes from place `a` to each place.
fn straight_row(alloc: Global, whole: &Instance, a: u32) -> Result<Vec<u32>, AllocError>
    requires { a < length whole.now.places }
    ensures { IfOk result (λ row.
        row.items ≡ row_of (length whole.now.places) (minutes_between whole.now a)) }
{
    let mut row = Vec::with_capacity(alloc, whole.places())?;
    for c in 0..whole.places() as u32 {
        row.push(whole.travel(a, c))?;
    }
    Ok(row)
}

/// The minutes from each place to each.
fn straight_rows(alloc: Global, whole: &Instance) -> Result<Vec<Vec<u32>>, AllocError>
    ensures { IfOk result (λ rows. rows_of rows.items
        ≡ table_of (length whole.now.places) (minutes_between whole.now)) }
{
    let mut rows = Vec::with_capacity(alloc, whole.places())?;
    for a in 0..whole.places() as u32 {
        rows.push(straight_row(alloc, whole, a)?)?;
    }
    Ok(rows)
}

/// The minutes from place `a` to place `c` in a table.
fn minutes(rows: &[Vec<u32>], a: usize, c: usize) -> u32
    requires table { AreTimes (length rows.now) (rows_of rows.now) }
    requires from { a < length rows.now }
    requires to { c < length rows.now }
    ensures minutes { result ≡ minutes_in (rows_of rows.now) a c }
    ensures limit { result ≤ LAST_MINUTE }
{
    rows[a][c]
}

/// The minutes from place `a` to place `c`, by way of place `b` where that is shorter.
fn minutes_by(rows: &[Vec<u32>], b: usize, a: usize, c: usize) -> u32
    requires table { AreTimes (length rows.now) (rows_of rows.now) }
    requires by { b < length rows.now }
    requires from { a < length rows.now }
    requires to { c < length rows.now }
    ensures { result ≡ by_way_of (rows_of rows.now) b a c }
{
    let straight = minutes(rows, a, c);
    let there = minutes(rows, a, b);
    straight.min(there + minutes(rows, b, c))
}

/// The minutes from place `a` to each place, by way of place `b` where that is shorter.
fn row_by(alloc: Global, rows: &[Vec<u32>], b: usize, a: usize) -> Result<Vec<u32>, AllocError>
    requires table { AreTimes (length rows.now) (rows_of rows.now) }
    requires by { b < length rows.now }
    requires from { a < length rows.now }
    ensures { IfOk result (λ row.
        row.items ≡ row_of (length rows.now) (by_way_of (rows_of rows.now) b a)) }
{
    let mut row = Vec::with_capacity(alloc, rows.len())?;
    for c in 0..rows.len() {
        row.push(minutes_by(rows, b, a, c))?;
    }
    Ok(row)
}

/// The minutes from each place to each, by way of place `b` where that is shorter.
fn rows_by(alloc: Global, rows: &[Vec<u32>], b: usize) -> Result<Vec<Vec<u32>>, AllocError>
    requires table { AreTimes (length rows.now) (rows_of rows.now) }
    requires by { b < length rows.now }
    ensures { IfOk result (λ next. rows_of next.items
        ≡ table_of (length rows.now) (by_way_of (rows_of rows.now) b)) }
{
    let mut next = Vec::with_capacity(alloc, rows.len())?;
    for a in 0..rows.len() {
        next.push(row_by(alloc, rows, b, a)?)?;
    }
    Ok(next)
}

/// The minutes of the shortest ways from each place to each: ways by the first place are taken where they are shorter, then
/// those by the second too, and so on. It takes time with the third power of the number of places.
pub(crate) fn shortest(alloc: Global, whole: &Instance) -> Result<Vec<Vec<u32>>, AllocError>
    ensures { IfOk result (λ rows.
        AreWaysBy whole.now (length whole.now.places) (rows_of rows.items)) }
{
    let mut rows = straight_rows(alloc, whole)?;
    for b in 0..whole.places() {
        rows = rows_by(alloc, &rows, b)?;
    }
    Ok(rows)
}
