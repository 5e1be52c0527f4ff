// Sums of shares, each as a number of wholes and a part of one. A sum stops where it is past any that a loose choice has.
ghost use Rattle.std.specs.Prelude.{◌≡◌, ◌≤◌, ◌<◌, ◌+◌, ◌*◌, ◌^◌, ◌==◌, ℕ, pos, length, if◌then◌else◌};
ghost use Rattle.crew_num.specs.Mixed.{IsMixed, value};
ghost use Rattle.share_terms.specs.Shares.{visits_to};
ghost use Rattle.share_check.specs.CellSums.{AreSums, IsSum, visit_at};

use crew_num::{Mixed, mixed_add};
use crew_terms::Visit;

/// From so many wholes on a sum is not told exactly: a task needs eight visits at most.
pub(crate) const MANY: i64 = 1_000;

/// No part of a whole.
pub(crate) const NOTHING: Mixed = Mixed { whole: 0, part: 0 };

/// So many parts of a whole, and no more than it has.
pub(crate) fn share_of(parts: u128, whole: u128) -> Mixed
    requires some { 1 ≤ whole }
    requires most { parts ≤ whole }
    ensures value { value result whole ≡ pos parts }
    ensures mixed { IsMixed result whole (pos 1) }
{
    if parts == whole {
        Mixed { whole: 1, part: 0 }
    } else {
        Mixed {
            whole: 0,
            part: parts,
        }
    }
}

/// The sum with one more share.
pub(crate) fn with_share(sum: Mixed, share: Mixed, whole: u128) -> Mixed
    requires whole { whole < 2 ^ 127 }
    requires sum { (n : ℕ) × IsSum whole sum n }
    requires share { IsMixed share whole (pos 1) }
    ensures { (n k : ℕ) → IsSum whole sum n → value share whole ≡ pos k
        → IsSum whole result (n + k) }
{
    if sum.whole >= MANY {
        return sum;
    }
    mixed_add(sum, share, whole)
}

/// Adds a share to the sum at the place.
fn add_at(sums: &mut [Mixed], place: usize, share: Mixed, whole: u128)
    requires whole { whole < 2 ^ 127 }
    requires place { place < length sums.old }
    requires sums { (f : ℕ → ℕ) × AreSums whole sums.old f }
    requires share { IsMixed share whole (pos 1) }
    ensures count { length sums.new ≡ length sums.old }
    ensures sums { (f : ℕ → ℕ) (k : ℕ) → AreSums whole sums.old f → value share whole ≡ pos k
        → AreSums whole sums.new (λ j. f j + (if j == place then k else 0)) }
{
    sums[place] = with_share(sums[place], share, whole);
}

/// Adds a share to the sum at the place of each visit's task, as often as it comes there.
pub(crate) fn add_visits(sums: &mut [Mixed], visits: &[Visit], share: Mixed, whole: u128)
    requires whole { whole < 2 ^ 127 }
    requires sums { (f : ℕ → ℕ) × AreSums whole sums.old f }
    requires known { (i : ℕ) → i < length visits.now
        → (visit_at visits.now i).task < length sums.old }
    requires share { IsMixed share whole (pos 1) }
    ensures count { length sums.new ≡ length sums.old }
    ensures sums { (f : ℕ → ℕ) (k : ℕ) → AreSums whole sums.old f → value share whole ≡ pos k
        → AreSums whole sums.new (λ j. f j + k * visits_to j visits.now) }
{
    for i in 0..visits.len() {
        add_at(sums, visits[i].task as usize, share, whole);
    }
}

/// Makes each sum that of no shares.
pub(crate) fn clear(sums: &mut [Mixed])
    ensures count { length sums.new ≡ length sums.old }
    ensures none { (whole : ℕ) → 1 ≤ whole → AreSums whole sums.new (λ j. 0) }
{
    for i in 0..sums.len() {
        sums[i] = NOTHING;
    }
}
