// Travel times of a part: nowhere longer than those of the whole, and no way by another place is shorter.
ghost use Rattle.std.specs.Prelude.{◌≡◌, ◌≤◌, ◌<◌, ◌+◌, ◌↔◌, ℕ, length, IsTrue};
ghost use Rattle.crew_terms.specs.Instance.{minutes_between};
ghost use Rattle.part_terms.specs.Parts.{AreShorterTimes};

use crew_instance::Instance;

/// Whether the part's minutes from place `a` to each place are no more than the whole's.
fn are_no_longer_from(whole: &Instance, part: &Instance, a: u32) -> bool
    requires places { part.now.places ≡ whole.now.places }
    requires place { a < length part.now.places }
    ensures { IsTrue result ↔
        ((b : ℕ) → minutes_between part.now a b ≤ minutes_between whole.now a b) }
{
    for b in 0..part.places() as u32 {
        if part.travel(a, b) > whole.travel(a, b) {
            return false;
        }
    }
    true
}

/// Whether no travel time of the part is longer than the whole's.
fn are_no_longer(whole: &Instance, part: &Instance) -> bool
    requires { part.now.places ≡ whole.now.places }
    ensures { IsTrue result ↔
        ((a b : ℕ) → minutes_between part.now a b ≤ minutes_between whole.now a b) }
{
    for a in 0..part.places() as u32 {
        if !are_no_longer_from(whole, part, a) {
            return false;
        }
    }
    true
}

/// Whether to no place it takes longer from place `a` than by way of place `b`.
fn has_no_way_by(part: &Instance, a: u32, b: u32) -> bool
    requires from { a < length part.now.places }
    requires by { b < length part.now.places }
    ensures { IsTrue result ↔ ((c : ℕ) →
        minutes_between part.now a c ≤ minutes_between part.now a b + minutes_between part.now b c) }
{
    let there = part.travel(a, b);
    for c in 0..part.places() as u32 {
        if part.travel(a, c) > there + part.travel(b, c) {
            return false;
        }
    }
    true
}

/// Whether to no place it takes longer from place `a` than by way of some place.
fn has_no_way_from(part: &Instance, a: u32) -> bool
    requires { a < length part.now.places }
    ensures { IsTrue result ↔ ((b c : ℕ) → b < length part.now.places →
        minutes_between part.now a c ≤ minutes_between part.now a b + minutes_between part.now b c) }
{
    for b in 0..part.places() as u32 {
        if !has_no_way_by(part, a, b) {
            return false;
        }
    }
    true
}

/// Whether no way by another place is shorter. It takes time with the third power of the number of places.
fn meets_triangle(part: &Instance) -> bool
    ensures { IsTrue result ↔ ((a b c : ℕ) → b < length part.now.places →
        minutes_between part.now a c ≤ minutes_between part.now a b + minutes_between part.now b c) }
{
    for a in 0..part.places() as u32 {
        if !has_no_way_from(part, a) {
            return false;
        }
    }
    true
}

/// Whether the part's travel times are nowhere longer than the whole's, and meet the triangle inequality.
pub(crate) fn has_shorter_times(whole: &Instance, part: &Instance) -> bool
    requires { part.now.places ≡ whole.now.places }
    ensures { IsTrue result ↔ AreShorterTimes whole.now part.now }
{
    are_no_longer(whole, part) && meets_triangle(part)
}
