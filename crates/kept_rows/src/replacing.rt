// The replacement of what is kept of a row.

ghost use Rattle.std.specs.Prelude.{◌≡◌, ◌<◌, ◌<ℤ◌, ◌*ℤ◌, ◌-ℤ◌, ℕ, pos, length};
ghost use Rattle.crew_num.specs.Exact.{StepsFit};
ghost use Rattle.search_terms.specs.Rows.{number};
ghost use Rattle.kept_rows.specs.Columns.{full};
ghost use Rattle.kept_rows.specs.Replaced.{AllFit, AreLowered, CanReplace, IsCombined, IsNewRow};

use crate::columns::{Column, entry};
use crate::factors::divide;
use crate::quotients::Factor;
use crew_num::gcd_of;

/// p * a - e * b. Most numbers of a pivot row are 0, and most factors 1.
fn difference(p: i128, a: i128, e: i128, b: i128) -> i128
    requires { StepsFit p a e b }
    ensures { result ≡ (p *ℤ a) -ℤ (e *ℤ b) }
{
    if b == 0 {
        return if p == 1 { a } else { p * a };
    }
    p * a - e * b
}

/// Makes each number of the row p times it, less e times the pivot row's.
fn combine(row: &mut [i128], pivot: &[i128], p: i128, e: i128)
    requires lengths { length row.old ≡ length pivot.now }
    requires fits { (j : ℕ) → j < length row.old
        → StepsFit p (number row.old j) e (number pivot.now j) }
    ensures { IsCombined p e pivot.now row.old row.new }
{
    for j in 0..row.len() {
        row[j] = difference(p, row[j], e, pivot[j]);
    }
}

/// Two numbers over their greatest common factor.
#[derive(Clone, Copy)]
struct Lowered {
    p: i128,
    e: i128,
}

/// The two over their greatest common factor; the first is positive.
fn over_factor(p: i128, e: i128) -> Lowered
    requires { pos 0 <ℤ p }
    ensures { AreLowered p e result }
{
    let factor = Factor::of(gcd_of(p.unsigned_abs(), e.unsigned_abs()));
    Lowered {
        p: factor.quotient(p),
        e: factor.quotient(e),
    }
}

/// Replaces the row, by the row at which the variable at place v enters; both have p and e at v.
pub fn replace(
    columns: &[Column],
    row: &mut [i128],
    pivot: &[i128],
    v: usize,
    basic: usize,
    p: i128,
    e: i128,
)
    requires can { CanReplace (length pivot.now) columns.now pivot.now row.old v basic }
    requires p { p ≡ number (full columns.now pivot.now) v }
    requires e { e ≡ number (full columns.now row.old) v }
    requires fits { AllFit columns.now pivot.now row.old p e }
    ensures { IsNewRow (length pivot.now) columns.now pivot.now row.old row.new v }
{
    let by = over_factor(p, e);
    combine(row, pivot, by.p, by.e);
    let start = entry(row, &columns[basic]).unsigned_abs();
    divide(row, start);
}
