// A quick test whether the steps of a replacement lie in i128.

ghost use Rattle.std.specs.Prelude.{◌≡◌, ◌≤◌, ◌<◌, ◌-◌, ◌≢◌, ℕ, length, unsigned_abs, IfSome, IsTrue};
ghost use Rattle.search_terms.specs.Rows.{number};
ghost use Rattle.kept_rows.specs.Bounds.{IsFarther, IsGreater, IsReachWith, IsSmall};
ghost use Rattle.kept_rows.specs.Replaced.{AreWithin, IsMost, IsWithin};

use crate::columns::Column;

/// What the numbers of a column are at most: so many times the greatest of a row's kept numbers but that at the place `last`,
/// and so many times that one.
#[derive(Clone, Copy)]
pub struct Reach {
    pub others: u128,
    pub last: u128,
}

/// The reach with so many times the kept number at this place.
fn farther(reach: Reach, at: usize, more: u128, last: usize) -> Option<Reach>
    ensures { IfSome result (IsFarther reach at more last) }
{
    if at == last {
        let sum = reach.last.checked_add(more)?;
        Some(Reach {
            others: reach.others,
            last: sum,
        })
    } else {
        let sum = reach.others.checked_add(more)?;
        Some(Reach {
            others: sum,
            last: reach.last,
        })
    }
}

/// How far the column reaches; None where this leaves 128 bits.
fn reach_of(column: &Column, last: usize) -> Option<Reach>
    requires { length column.now.numbers.items ≡ length column.now.at.items }
    ensures { IfSome result (λ r. IsWithin last r column.now) }
{
    let mut reach = Reach { others: 0, last: 0 };
    for h in 0..column.at.len() {
        let more = farther(reach, column.at[h], column.numbers[h].unsigned_abs(), last)?;
        reach = more;
    }
    Some(reach)
}

/// The greater reach.
fn greater(a: Reach, b: Reach) -> Reach
    ensures { IsGreater a b result }
{
    Reach {
        others: a.others.max(b.others),
        last: a.last.max(b.last),
    }
}

/// The reach of columns and one more.
pub fn reach_with(reach: Option<Reach>, column: &Column, last: usize) -> Option<Reach>
    requires { length column.now.numbers.items ≡ length column.now.at.items }
    ensures { IfSome result (IsReachWith reach last column.now) }
{
    let before = reach?;
    let more = reach_of(column, last)?;
    Some(greater(before, more))
}

/// What the row's numbers but that at the place `last` are at most, without signs.
fn most_but(row: &[i128], last: usize) -> u128
    ensures { (i : ℕ) → i ≢ last → unsigned_abs (number row.now i) ≤ result }
{
    let mut bits: u128 = 0;
    for h in 0..row.len() {
        if h != last {
            bits |= row[h].unsigned_abs();
        }
    }
    bits
}

/// What the row's numbers are at most; None where this leaves 128 bits.
pub fn most(columns: &[Column], reach: Option<Reach>, row: &[i128]) -> Option<u128>
    requires row { 1 < length row.now }
    requires reach { AreWithin (length row.now - 2) reach columns.now }
    ensures { IsMost columns.now row.now result }
{
    let reach = reach?;
    let last = row.len() - 2;
    let others = reach.others.checked_mul(most_but(row, last))?;
    let ending = reach.last.checked_mul(row[last].unsigned_abs())?;
    let sum = others.checked_add(ending)?;
    Some(sum)
}

/// Whether the products of a and numbers that are at most so great are less than half of what i128 has.
pub fn is_small(a: i128, most: Option<u128>) -> bool
    ensures { IsTrue result → IsSmall a most }
{
    let Some(bound) = most else {
        return false;
    };
    let Some(product) = a.unsigned_abs().checked_mul(bound) else {
        return false;
    };
    product < 1 << 126
}
