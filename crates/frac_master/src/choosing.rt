// Which variable enters, and at which row.

ghost use Rattle.std.specs.Prelude.{◌+◌, ◌≡◌, ◌≤◌, ◌<◌, ◌-◌, ℕ, pos, ◌<ℤ◌, length, MatchBool, MatchOption, MatchResult};
ghost use Rattle.search_terms.specs.Rows.{AreBasic, width};
ghost use Rattle.search_terms.specs.Pivot.{IsOptimal, IsEntering};
ghost use Rattle.crew_num.specs.Ratios.{IsFirstProduct};
ghost use Rattle.frac_master.specs.Choosing.{IsBefore, IsBehind, IsBest, IsRatioFault, Leaves};

use crew_num::{Overflow, cmp_ratio};
use kept_rows::Tableau;
use search_terms::{RIGHT, VALUE};
use std::cmp::Ordering;

/// The place of the lowest variable of negative reduced cost.
pub fn entering(table: &Tableau) -> Option<usize>
    requires { AreBasic table.now.rows }
    ensures { MatchOption result (IsOptimal table.now.rows) (IsEntering table.now.rows) }
{
    let last = table.height() - 1;
    for v in VALUE + 1..table.width() {
        if table.number(last, v) > 0 {
            return Some(v);
        }
    }
    None
}

/// Whether a/b is less than c/d, or as great where x is less than y.
fn is_before(a: i128, b: i128, x: usize, c: i128, d: i128, y: usize) -> Result<bool, Overflow>
    requires b_positive { pos 0 <ℤ b }
    requires d_positive { pos 0 <ℤ d }
    ensures { MatchResult result (λ r. MatchBool r (IsBefore a b x c d y) (IsBehind a b x c d y))
        (IsFirstProduct a b c d) }
{
    match cmp_ratio(a, b, c, d)? {
        Ordering::Less => Ok(true),
        Ordering::Equal => Ok(x < y),
        Ordering::Greater => Ok(false),
    }
}

/// The best of the first h rows and the row h.
fn best_with(
    table: &Tableau,
    v: usize,
    best: Option<usize>,
    h: usize,
) -> Result<Option<usize>, Overflow>
    requires basic { AreBasic table.now.rows }
    requires row { h + 1 < length table.now.rows.rows }
    requires place { v < width table.now.rows }
    requires best { IsBest table.now.rows v h best }
    ensures { MatchResult result (IsBest table.now.rows v (h + 1)) (IsRatioFault table.now.rows v) }
{
    let number = table.number(h, v);
    if number <= 0 {
        return Ok(best);
    }
    let Some(g) = best else {
        return Ok(Some(h));
    };
    if is_before(
        table.number(h, RIGHT),
        number,
        table.basis()[h],
        table.number(g, RIGHT),
        table.number(g, v),
        table.basis()[g],
    )? {
        return Ok(Some(h));
    }
    Ok(Some(g))
}

/// The row of least ratio at place v, and among those the row whose basic variable is lowest; None where no row bounds
/// the variable.
pub fn leaving(table: &Tableau, v: usize) -> Result<Option<usize>, Overflow>
    requires basic { AreBasic table.now.rows }
    requires place { v < width table.now.rows }
    ensures { Leaves result table.now.rows v }
{
    let mut best: Option<usize> = None;
    for h in 0..table.height() - 1 {
        let better = best_with(table, v, best, h)?;
        best = better;
    }
    Ok(best)
}
