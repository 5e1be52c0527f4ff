// Columns, as combinations of the numbers that are kept of a row.

ghost use Rattle.std.specs.Prelude.{◌≡◌, ◌+ℤ◌, ◌*ℤ◌, length, IfOk};
ghost use Rattle.std.specs.Int.{int_wrap, w128};
ghost use Rattle.crew_num.specs.Exact.{FitsI128};
ghost use Rattle.kept_rows.specs.Columns.{Combines, IsKnownIn, IsOnly, entry_in};

use std::alloc::{AllocError, Global};

/// A row's number at a variable: the sum of its kept numbers at these places, each times its number.
#[derive(Drop)]
pub struct Column {
    pub at: Vec<usize>,
    pub numbers: Vec<i128>,
}

/// The column that has each kept number so many times; those that it has 0 times are left out.
pub fn column_of(alloc: Global, numbers: &[i128]) -> Result<Column, AllocError>
    ensures { IfOk result (λ c. Combines numbers.now c) }
{
    let mut at = Vec::new(alloc);
    let mut times = Vec::new(alloc);
    for h in 0..numbers.len() {
        let number = numbers[h];
        if number != 0 {
            at.push(h)?;
            times.push(number)?;
        }
    }
    Ok(Column { at, numbers: times })
}

/// The column that has the kept number at this place once.
pub fn only(alloc: Global, place: usize) -> Result<Column, AllocError>
    ensures { IfOk result (λ c. IsOnly place c) }
{
    let at = vec![in alloc; place]?;
    let numbers = vec![in alloc; 1i128]?;
    Ok(Column { at, numbers })
}

/// sum + a * b, of which the lower 128 bits count.
fn wrapped(sum: i128, a: i128, b: i128) -> i128
    ensures { result ≡ int_wrap w128 (sum +ℤ (a *ℤ b)) }
{
    sum.wrapping_add(a.wrapping_mul(b))
}

/// The number that a row has in the column, which lies in i128. The sum may wrap on its way.
pub fn entry(row: &[i128], column: &Column) -> i128
    requires known { IsKnownIn (length row.now) column.now }
    requires fits { FitsI128 (entry_in row.now column.now) }
    ensures { result ≡ entry_in row.now column.now }
{
    let mut sum: i128 = 0;
    for h in 0..column.at.len() {
        sum = wrapped(sum, row[column.at[h]], column.numbers[h]);
    }
    sum
}
