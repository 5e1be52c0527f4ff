// The parts of a choice's value: how far its sums are from what the node needs.
ghost use Rattle.std.specs.Prelude.{◌≡◌, ◌≤◌, ◌<◌, ◌+◌, ◌-◌, ◌*◌, ◌^◌, ◌≤ℤ◌, ◌*ℤ◌, ℕ, pos, IfSome, MatchBool, MatchOption};
ghost use Rattle.crew_num.specs.Mixed.{IsMixed, value};
ghost use Rattle.share_terms.specs.Shares.{distance};
ghost use Rattle.share_check.specs.CellSums.{IsSum};

use crate::cells::{MANY, share_of};
use crew_num::{Mixed, mixed_add, mixed_gap, mixed_times};

/// Whether a sum is at most one whole.
pub(crate) fn is_one_at_most(sum: Mixed) -> bool
    ensures { (whole n : ℕ) → 1 ≤ whole → IsSum whole sum n
        → MatchBool result (n ≤ whole) (n ≤ whole → ⊥) }
{
    sum.whole < 1 || (sum.whole == 1 && sum.part == 0)
}

/// Whether a number of parts is at most so many wholes.
fn is_at_most(parts: Mixed, most: u32, whole: u128) -> bool
    requires some { 1 ≤ whole }
    requires parts { IsMixed parts whole (pos 1000000000000) }
    ensures { (n : ℕ) → value parts whole ≡ pos n
        → MatchBool result (n ≤ most * whole) (n ≤ most * whole → ⊥) }
{
    if parts.whole < most as i64 {
        return true;
    }
    parts.whole == most as i64 && parts.part == 0
}

/// How far a sum is from `needed` times a share; None where the sum is too great to tell it.
pub(crate) fn gap_of(sum: Mixed, needed: u32, share: u128, whole: u128) -> Option<Mixed>
    requires some { 1 ≤ whole }
    requires whole { whole < 2 ^ 127 }
    requires share { share ≤ whole }
    requires needed { needed ≤ 8 }
    requires sum { (n : ℕ) × IsSum whole sum n }
    ensures exact { (n : ℕ) → IsSum whole sum n
        → MatchOption result (1000 * whole ≤ n)
        (λ gap. value gap whole ≡ pos (distance (needed * share) n)) }
    ensures mixed { IfSome result (λ gap. IsMixed gap whole (pos 1001)) }
{
    if sum.whole >= MANY {
        return None;
    }
    let wanted = mixed_times(share_of(share, whole), needed, whole);
    Some(mixed_gap(wanted, sum, whole))
}

/// Whether `gaps` wholes at a million each, and `spares`, are at most now - 1 wholes and a thousandth of one.
pub(crate) fn is_within(gaps: Mixed, spares: Mixed, now: u32, whole: u128) -> bool
    requires some { 1 ≤ whole }
    requires whole { whole < 2 ^ 127 }
    requires now { 1 ≤ now }
    requires few { now ≤ 400 }
    requires gaps { IsMixed gaps whole (pos 100000000) }
    requires spares { IsMixed spares whole (pos 100000000) }
    ensures { (g s : ℕ) → value gaps whole ≡ pos g → value spares whole ≡ pos s
        → MatchBool result (1000 * (s + 1000000 * g) ≤ ((now - 1) * 1000 + 1) * whole)
        (1000 * (s + 1000000 * g) ≤ ((now - 1) * 1000 + 1) * whole → ⊥) }
{
    if gaps.whole > 0 {
        return false;
    }
    let penalty = mixed_times(gaps, 1_000_000, whole);
    let sum = mixed_add(penalty, spares, whole);
    let scaled = mixed_times(sum, 1_000, whole);
    is_at_most(scaled, (now - 1) * 1_000 + 1, whole)
}
