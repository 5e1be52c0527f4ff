// How far the visits of a choice are from what its tasks and required pairs need.
ghost use Rattle.std.specs.Prelude.{◌≡◌, ◌≤◌, ◌<◌, ◌*◌, ◌^◌, ℕ, pos, length, slice_index_or, IfSome, MatchOption};
ghost use Rattle.crew_num.specs.Mixed.{IsMixed, value};
ghost use Rattle.crew_terms.specs.Limits.{tasks_in};
ghost use Rattle.crew_terms.specs.Total.{total};
ghost use Rattle.share_terms.specs.Shares.{FractionalChoice, task_gap, unassigned_of, weighed_visits};
ghost use Rattle.share_check.specs.CellSums.{AreSums, IsSum};

use crate::cells::{NOTHING, share_of};
use crate::value::gap_of;
use crew_num::{Mixed, mixed_add};
use line_in::WideNumbers;
use node_limits::Limits;

/// How far the visits to a task are from what its assigned share needs; None where they are too many to tell it.
fn task_gap(limits: &Limits<'_>, j: u32, sum: Mixed, spare: u128, whole: u128) -> Option<Mixed>
    requires task { j < tasks_in limits.now.limits }
    requires some { 1 ≤ whole }
    requires whole { whole < 2 ^ 127 }
    requires spare { spare ≤ whole }
    requires sum { (n : ℕ) × IsSum whole sum n }
    ensures exact { (c : FractionalChoice) → c.whole ≡ whole → unassigned_of c j ≡ spare
        → IsSum whole sum (weighed_visits c.shares j)
        → MatchOption result (1000 * whole ≤ weighed_visits c.shares j)
        (λ gap. value gap whole ≡ task_gap limits.now.limits c j) }
    ensures mixed { IfSome result (λ gap. IsMixed gap whole (pos 1001)) }
{
    gap_of(sum, limits.instance().task(j).teams, whole - spare, whole)
}

/// The sum of these gaps over all tasks; None where one can't be told.
pub(crate) fn task_gaps(
    limits: &Limits<'_>,
    sums: &[Mixed],
    spare: &WideNumbers<'_>,
    whole: u128,
) -> Option<Mixed>
    requires some { 1 ≤ whole }
    requires whole { whole < 2 ^ 127 }
    requires spares { (j : ℕ) → slice_index_or spare.now j 0 ≤ whole }
    requires count { length spare.now ≡ tasks_in limits.now.limits }
    requires tasks { length sums.now ≡ tasks_in limits.now.limits }
    requires sums { (f : ℕ → ℕ) × AreSums whole sums.now f }
    ensures exact { (c : FractionalChoice) → c.whole ≡ whole → c.unassigned ≡ spare.now
        → AreSums whole sums.now (weighed_visits c.shares)
        → MatchOption result ((j : ℕ) × (j < tasks_in limits.now.limits)
        × (1000 * whole ≤ weighed_visits c.shares j))
        (λ gaps. value gaps whole ≡ total (tasks_in limits.now.limits)
        (task_gap limits.now.limits c)) }
    ensures mixed { IfSome result (λ gaps. IsMixed gaps whole (pos 1000000)) }
{
    let mut gaps = NOTHING;
    for j in 0..limits.instance().tasks() {
        let Some(gap) = task_gap(limits, j as u32, sums[j], spare.get(j), whole) else {
            return None;
        };
        gaps = mixed_add(gaps, gap, whole);
    }
    Some(gaps)
}

/// The sum of the unassigned shares of all tasks.
pub(crate) fn spare_sum(spare: &WideNumbers<'_>, whole: u128) -> Mixed
    requires some { 1 ≤ whole }
    requires whole { whole < 2 ^ 127 }
    requires spares { (j : ℕ) → slice_index_or spare.now j 0 ≤ whole }
    requires count { length spare.now ≤ 400 }
    ensures value { (c : FractionalChoice) → c.unassigned ≡ spare.now
        → value result whole ≡ total (length spare.now) (λ j. pos (unassigned_of c j)) }
    ensures mixed { IsMixed result whole (pos 1000000) }
{
    let mut sum = NOTHING;
    for j in 0..spare.len() {
        sum = mixed_add(sum, share_of(spare.get(j), whole), whole);
    }
    sum
}
