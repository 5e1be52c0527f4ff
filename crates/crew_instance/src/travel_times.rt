// Travel times between places as far as they are given, whoever keeps them.
ghost use Rattle.std.specs.Prelude.{◌≡◌, ◌≢◌, ◌≤◌, ◌<◌, ℕ, None, Some, length, slice_index_or, IfNone, IfOk, IfSome};
ghost use Rattle.crew_terms.specs.declared.TheConstants.{MOST_PLACES};
ghost use Rattle.crew_instance.specs.Draft.{rows_of};
ghost use Rattle.crew_instance.specs.Times.{IsFirstMissing, IsMissing, IsNextMissing, Times, all_minutes, minutes_from, minutes_of};

use std::alloc::{AllocError, Global};

/// Travel times between places, as far as they are given. Places are numbered from 0.
///
/// In contracts: how many places there are, the time that was given from one to another, and the default.
pub trait TravelTimes {
    ghost times: { Self → Times };

    /// How many places there are.
    fn place_count(&self) -> usize
        ensures count { result ≡ (times self.now).places }
        ensures few { result ≤ MOST_PLACES };

    /// The minutes that were given from place `a` to place `b`.
    fn given(&self, a: u32, b: u32) -> Option<u32>
        requires from { a < (times self.now).places }
        requires to { b < (times self.now).places }
        ensures { result ≡ (times self.now).given a b };

    /// The minutes from place `a` to each, where all of them were given and stand in a row. Others may be asked for one
    /// by one.
    fn given_row(&self, a: u32) -> Option<&[u32]>
        requires { a < (times self.now).places }
        ensures count { IfSome result (λ row. length row.now ≡ (times self.now).places) }
        ensures given { IfSome result (λ row. (b : ℕ) → b < length row.now →
            (times self.now).given a b ≡ Some (slice_index_or row.now b 0)) };

    /// The minutes between different places for which none were given.
    fn default_minutes(&self) -> Option<u32>
        ensures { result ≡ (times self.now).default_minutes };
}

/// The first two different places of which nothing says the time from the one to the other, by `from` and then by `to`.
pub fn first_missing<T: TravelTimes>(times: &T) -> Option<(u32, u32)>
    ensures found { IfSome result (λ p. IsFirstMissing (T.times times.now) p.0 p.1) }
    ensures none { IfNone result ((a b : ℕ) → ¬ (IsMissing (T.times times.now) a b)) }
{
    if times.default_minutes().is_some() {
        return None;
    }
    for from in 0..times.place_count() as u32 {
        if let Some(to) = missing_from(times, from) {
            return Some((from, to));
        }
    }
    None
}

/// The first place to which nothing says the time from place `a`, where no default stands.
fn missing_from<T: TravelTimes>(times: &T, a: u32) -> Option<u32>
    requires place { a < (T.times times.now).places }
    requires no_default { (T.times times.now).default_minutes ≡ None }
    ensures found { IfSome result (IsNextMissing (T.times times.now) a) }
    ensures none { IfNone result ((y : ℕ) → ¬ (IsMissing (T.times times.now) a y)) }
{
    if times.given_row(a).is_some() {
        return None;
    }
    for to in 0..times.place_count() as u32 {
        if a != to && times.given(a, to).is_none() {
            return Some(to);
        }
    }
    None
}

/// The minutes from place `a` to place `b`: those that were given, else none for the same place, else the default, else none.
fn minutes<T: TravelTimes>(times: &T, a: u32, b: u32) -> u32
    requires from { a < (T.times times.now).places }
    requires to { b < (T.times times.now).places }
    ensures { result ≡ minutes_of (T.times times.now) a b }
{
    if let Some(minutes) = times.given(a, b) {
        return minutes;
    }
    if a == b {
        return 0;
    }
    times.default_minutes().unwrap_or(0)
}

/// The minutes from place `a` to each place.
pub(crate) fn minutes_row<T: TravelTimes>(
    alloc: Global,
    times: &T,
    a: u32,
) -> Result<Vec<u32>, AllocError>
    requires { a < (T.times times.now).places }
    ensures { IfOk result (λ row. row.items ≡ minutes_from (T.times times.now) a) }
{
    if let Some(row) = times.given_row(a) {
        return Vec::from_slice(alloc, row);
    }
    let mut row = Vec::with_capacity(alloc, times.place_count())?;
    for b in 0..times.place_count() as u32 {
        row.push(minutes(times, a, b))?;
    }
    Ok(row)
}

/// The minutes from each place to each; a missing time counts as none.
pub fn minutes_rows<T: TravelTimes>(alloc: Global, times: &T) -> Result<Vec<Vec<u32>>, AllocError>
    ensures { IfOk result (λ rows. rows_of rows.items ≡ all_minutes (T.times times.now)) }
{
    let mut rows = Vec::with_capacity(alloc, times.place_count())?;
    for a in 0..times.place_count() as u32 {
        rows.push(minutes_row(alloc, times, a)?)?;
    }
    Ok(rows)
}
