// The number of an entered variable in each row, summed in order.

ghost use Rattle.std.specs.Prelude.{◌≡◌, ◌≤◌, length, All, MatchResult};
ghost use Rattle.crew_num.specs.Exact.{FitsI128};
ghost use Rattle.kept_rows.specs.Forming.{IsFormingFault, IsRunningFault, sum_of};
ghost use Rattle.kept_rows.specs.Sums.{IsAdded};
ghost use Rattle.kept_rows.specs.Table.{rows_of};

use crew_num::{Overflow, add, mul};

/// sum + a * b.
fn add_product(sum: i128, a: i128, b: i128) -> Result<i128, Overflow>
    ensures { IsAdded result sum a b }
{
    let product = mul(a, b)?;
    let more = add(sum, product)?;
    Ok(more)
}

/// The sum of the row's first numbers, each times its number, in order.
fn running_sum(row: &[i128], numbers: &[i128]) -> Result<i128, Overflow>
    requires { length numbers.now ≤ length row.now }
    ensures { MatchResult result (λ z. z ≡ sum_of (length numbers.now) row.now numbers.now)
        (IsRunningFault row.now numbers.now) }
{
    let mut sum: i128 = 0;
    for h in 0..numbers.len() {
        let more = add_product(sum, row[h], numbers[h])?;
        sum = more;
    }
    Ok(sum)
}

/// Forms each row's sum.
pub fn form_sums(rows: &[Vec<i128>], numbers: &[i128]) -> Result<(), Overflow>
    requires { All (λ row. length numbers.now ≤ length row) (rows_of rows.now) }
    ensures { MatchResult result
        (λ _. All (λ row. FitsI128 (sum_of (length numbers.now) row numbers.now)) (rows_of rows.now))
        (IsFormingFault (rows_of rows.now) numbers.now) }
{
    for row in rows {
        let _sum = running_sum(row, numbers)?;
    }
    Ok(())
}
