// What is kept of opening rows.

ghost use Rattle.std.specs.Prelude.{◌≡◌, ◌<◌, ℕ, length, All, IfOk, map};
ghost use Rattle.crew_num.specs.Exact.{FitsI128};
ghost use Rattle.search_terms.specs.Rows.{number};
ghost use Rattle.search_terms.specs.declared.TheConstants.{RIGHT};
ghost use Rattle.kept_rows.specs.Clearing.{at_row};
ghost use Rattle.kept_rows.specs.Opening.{AreOpeningColumns, IsOpeningColumn, column_numbers, kept_of};
ghost use Rattle.kept_rows.specs.Table.{rows_of};

use crate::columns::{Column, column_of, only};
use search_terms::RIGHT;
use std::alloc::{AllocError, Global};

/// The numbers of the rows at place j.
fn numbers_at(alloc: Global, rows: &[Vec<i128>], j: usize) -> Result<Vec<i128>, AllocError>
    requires { All (λ row. j < length row) (rows_of rows.now) }
    ensures { IfOk result (λ v. v.items ≡ column_numbers (rows_of rows.now) j) }
{
    let mut numbers = Vec::new(alloc);
    for row in rows {
        numbers.push(row[j])?;
    }
    Ok(numbers)
}

/// The column at place j. The right side is kept, behind the numbers at the openers.
fn opening_column(alloc: Global, rows: &[Vec<i128>], j: usize) -> Result<Column, AllocError>
    requires { All (λ row. j < length row) (rows_of rows.now) }
    ensures { IfOk result (λ c. IsOpeningColumn (rows_of rows.now) j c) }
{
    if j == RIGHT {
        return only(alloc, rows.len());
    }
    let numbers = numbers_at(alloc, rows, j)?;
    column_of(alloc, &numbers)
}

/// The columns at so many places.
pub fn opening_columns(
    alloc: Global,
    rows: &[Vec<i128>],
    width: usize,
) -> Result<Vec<Column>, AllocError>
    requires { All (λ row. length row ≡ width) (rows_of rows.now) }
    ensures { IfOk result (λ v. AreOpeningColumns (rows_of rows.now) width v.items) }
{
    let mut columns = Vec::new(alloc);
    for j in 0..width {
        let column = opening_column(alloc, rows, j)?;
        columns.push(column)?;
    }
    Ok(columns)
}

/// The same places.
pub fn copy_of(alloc: Global, places: &[usize]) -> Result<Vec<usize>, AllocError>
    ensures { IfOk result (λ v. v.items ≡ places.now) }
{
    let mut copy = Vec::new(alloc);
    for j in places {
        copy.push(*j)?;
    }
    Ok(copy)
}

/// The row's numbers lie in i128: each is read.
fn read(row: &[i128])
    ensures { (j : ℕ) → FitsI128 (number row.now j) }
{
    for j in 0..row.len() {
        let _number = row[j];
    }
}

/// The row's numbers at the openers, and the right side.
pub fn kept_row(alloc: Global, row: &[i128], openers: &[usize]) -> Result<Vec<i128>, AllocError>
    requires right { RIGHT < length row.now }
    requires known { All (λ j. j < length row.now) openers.now }
    ensures kept { IfOk result (λ v. v.items ≡ kept_of openers.now row.now) }
    ensures fits { IfOk result (λ _. (j : ℕ) → FitsI128 (number row.now j)) }
{
    read(row);
    let mut kept = Vec::new(alloc);
    for j in openers {
        kept.push(row[*j])?;
    }
    kept.push(row[RIGHT])?;
    Ok(kept)
}

/// What is kept of each row.
pub fn kept_rows(
    alloc: Global,
    rows: &[Vec<i128>],
    openers: &[usize],
) -> Result<Vec<Vec<i128>>, AllocError>
    requires right { All (λ row. RIGHT < length row) (rows_of rows.now) }
    requires known { All (λ row. All (λ j. j < length row) openers.now) (rows_of rows.now) }
    ensures kept { IfOk result (λ v.
        rows_of v.items ≡ map (kept_of openers.now) (rows_of rows.now)) }
    ensures fits { IfOk result (λ _. (i j : ℕ) → i < length rows.now
        → FitsI128 (number (at_row (rows_of rows.now) i) j)) }
{
    let mut all = Vec::new(alloc);
    for row in rows {
        let kept = kept_row(alloc, row, openers)?;
        all.push(kept)?;
    }
    Ok(all)
}
