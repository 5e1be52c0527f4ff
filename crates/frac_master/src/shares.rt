// The shares of the basic solution.

ghost use Rattle.std.specs.Prelude.{◌≡◌, ◌<◌, ◌+◌, ◌++◌, ◌^◌, ◌==◌, ℕ, pos, length, map, true, sum_by, IfOk, OnOk, MatchResult};
ghost use Rattle.std.specs.List.{position, range_with_len};
ghost use Rattle.search_terms.specs.Rows.{AreBasic};
ghost use Rattle.search_terms.specs.Opening.{place_at, places_where};
ghost use Rattle.search_terms.specs.Overflows.{is_unassigned as is_unassigned_place};
ghost use Rattle.search_terms.specs.BasicChoice.{is_unassigned_at};
ghost use Rattle.frac_master.specs.Fractions.{IsLowestShare, IsMultipleFault, IsNextMultiple, IsWholeAt};
ghost use Rattle.frac_master.specs.Shares.{IsCommonFault, IsCommonOf, column_shares, parts_at};

use crew_num::{Overflow, gcd_of, mul};
use kept_rows::Tableau;
use search_terms::{Place, RIGHT};
use std::alloc::{AllocError, Global};

/// The share of a route, in parts of a denominator that is told beside it.
#[derive(Clone, Copy, Debug, PartialEq, Eq)]
pub struct Share {
    /// The number of the route's column.
    pub column: usize,
    /// How many parts of the route are taken.
    pub num: i128,
}

/// A share in lowest terms.
#[derive(Clone, Copy)]
struct Fraction {
    num: u128,
    den: u128,
}

/// The row whose basic variable is at place j.
fn row_with(basis: &[usize], j: usize) -> Option<usize>
    ensures { result ≡ position (λ b. b == j) basis.now }
{
    basis.iter().position(|b| *b == j)
}

/// The share of the variable at place j.
fn share_at(table: &Tableau, j: usize) -> Fraction
    requires { AreBasic table.now.rows }
    ensures { IsLowestShare table.now.rows j result.num result.den }
{
    let Some(h) = row_with(table.basis(), j) else {
        return Fraction { num: 0, den: 1 };
    };
    let right = table.number(h, RIGHT).unsigned_abs();
    let number = table.number(h, j).unsigned_abs();
    let factor = gcd_of(right, number);
    Fraction {
        num: right / factor,
        den: number / factor,
    }
}

/// The least common multiple of two numbers, or the product that leaves i128.
fn common_multiple(m: u128, d: u128) -> Result<u128, Overflow>
    requires some { 0 < m }
    requires fits { m < 2 ^ 127 }
    requires other_some { 0 < d }
    requires other_fits { d < 2 ^ 127 }
    ensures { MatchResult result (IsNextMultiple m d) (IsMultipleFault m d) }
{
    let more = d / gcd_of(m, d);
    let product = mul(m as i128, more as i128)?;
    Ok(product.unsigned_abs())
}

/// The least common multiple of the denominators, in lowest terms, of the shares at these places.
fn common_denominator(table: &Tableau, at: &[usize]) -> Result<u128, Overflow>
    requires { AreBasic table.now.rows }
    ensures { MatchResult result (IsCommonOf table.now.rows at.now)
        (IsCommonFault table.now.rows at.now) }
{
    let mut den: u128 = 1;
    for j in at {
        let share = share_at(table, *j);
        let more = common_multiple(den, share.den)?;
        den = more;
    }
    Ok(den)
}

/// The least common multiple of the denominators, in lowest terms, of the shares of so many routes, by column, and then of the
/// unassigned shares.
pub fn denominator_of(
    alloc: Global,
    table: &Tableau,
    places: &[Place],
    columns: usize,
) -> Result<Result<u128, Overflow>, AllocError>
    requires basic { AreBasic table.now.rows }
    requires room { length places.now + columns < 2 ^ 64 }
    ensures { let at = range_with_len (length places.now) columns
        ++ places_where is_unassigned_place 0 places.now in
        IfOk result (λ r. MatchResult r (IsCommonOf table.now.rows at)
        (IsCommonFault table.now.rows at)) }
{
    let mut at = Vec::new(alloc);
    push_route_places(&mut at, places.len(), columns)?;
    push_open_places(&mut at, places)?;
    Ok(common_denominator(table, &at))
}

/// What the variable at place j has of these parts, of which `whole` make one.
fn parts_of(table: &Tableau, j: usize, whole: u128) -> u128
    requires basic { AreBasic table.now.rows }
    requires whole { IsWholeAt table.now.rows whole j }
    ensures { result ≡ parts_at table.now.rows whole j }
{
    let share = share_at(table, j);
    share.num * (whole / share.den)
}

/// Puts the places of so many columns behind these places.
fn push_route_places(at: &mut Vec<usize>, first: usize, columns: usize) -> Result<(), AllocError>
    requires { first + columns < 2 ^ 64 }
    ensures { OnOk result (at.new.items ≡ at.old.items ++ range_with_len first columns) }
{
    for i in 0..columns {
        at.push(first + i)?;
    }
    Ok(())
}

/// Whether it is an unassigned share.
fn is_unassigned(p: Place) -> bool
    ensures { result ≡ is_unassigned_place p }
{
    matches!(p, Place::Unassigned(_))
}

/// Puts the places of the unassigned shares behind these places.
fn push_open_places(at: &mut Vec<usize>, places: &[Place]) -> Result<(), AllocError>
    ensures { OnOk result (at.new.items ≡ at.old.items
        ++ places_where is_unassigned_place 0 places.now) }
{
    for (j, p) in places.iter().enumerate() {
        if is_unassigned(*p) {
            at.push(j)?;
        }
    }
    Ok(())
}

/// Puts the positive shares of the columns behind these; that of the first stands at place `first`.
pub fn push_shares(
    out: &mut Vec<Share>,
    table: &Tableau,
    columns: &[usize],
    first: usize,
    whole: u128,
) -> Result<(), AllocError>
    requires basic { AreBasic table.now.rows }
    requires room { first + length columns.now < 2 ^ 64 }
    requires whole { (i : ℕ) → i < length columns.now
        → IsWholeAt table.now.rows whole (first + i) }
    ensures { OnOk result (out.new.items ≡ out.old.items
        ++ column_shares (parts_at table.now.rows whole) first columns.now) }
{
    for (i, column) in columns.iter().enumerate() {
        let num = parts_of(table, first + i, whole);
        if num > 0 {
            out.push(Share {
                column: *column,
                num: num as i128,
            })?;
        }
    }
    Ok(())
}

/// Whether it is the unassigned share of task `j`.
fn is_open_of(p: Place, j: usize) -> bool
    ensures { result ≡ is_unassigned_at j p }
{
    match p {
        Place::Unassigned(i) => i as usize == j,
        _ => false,
    }
}

/// What is left unassigned of task `j`.
fn open_parts(table: &Tableau, places: &[Place], j: usize, whole: u128) -> u128
    requires basic { AreBasic table.now.rows }
    requires whole { (i : ℕ) → i < length places.now
        → is_unassigned_at j (place_at places.now i) ≡ true
        → IsWholeAt table.now.rows whole i }
    requires fits { sum_by (parts_at table.now.rows whole)
        (places_where (is_unassigned_at j) 0 places.now) < 2 ^ 127 }
    ensures { result ≡ sum_by (parts_at table.now.rows whole)
        (places_where (is_unassigned_at j) 0 places.now) }
{
    let mut sum: u128 = 0;
    for (i, p) in places.iter().enumerate() {
        if is_open_of(*p, j) {
            sum += parts_of(table, i, whole);
        }
    }
    sum
}

/// Puts what is left unassigned of so many tasks behind these.
pub fn push_open(
    left_open: &mut Vec<i128>,
    table: &Tableau,
    places: &[Place],
    tasks: usize,
    whole: u128,
) -> Result<(), AllocError>
    requires basic { AreBasic table.now.rows }
    requires whole { (j i : ℕ) → j < tasks → i < length places.now
        → is_unassigned_at j (place_at places.now i) ≡ true
        → IsWholeAt table.now.rows whole i }
    requires fits { (j : ℕ) → j < tasks → sum_by (parts_at table.now.rows whole)
        (places_where (is_unassigned_at j) 0 places.now) < 2 ^ 127 }
    ensures { OnOk result (left_open.new.items ≡ left_open.old.items
        ++ map (λ j. pos (sum_by (parts_at table.now.rows whole)
        (places_where (is_unassigned_at j) 0 places.now))) (range_with_len 0 tasks)) }
{
    for j in 0..tasks {
        left_open.push(open_parts(table, places, j, whole) as i128)?;
    }
    Ok(())
}
