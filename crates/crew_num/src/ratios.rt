// Ratios of numbers: their order, and the floor of one that is scaled.
ghost use Rattle.std.specs.Prelude.{◌≡◌, pos, ◌+ℤ◌, ◌*ℤ◌, ◌<ℤ◌, ◌≤ℤ◌, IfOk, IfErr, OnOk};
ghost use Rattle.std.specs.Option.{SomeIff};
ghost use Rattle.crew_num.specs.Exact.{FitsI128};
ghost use Rattle.crew_num.specs.Ratios.{IsFirstProduct, IsFloor, IsFloorOverflow, IsOrder};

use crate::exact::{Op, Overflow, mul};
use crate::quotients::times_part;
use std::cmp::Ordering;

/// Compares a/b with c/d: by the products a * d and c * b, or the first of them that leaves i128.
pub fn cmp_ratio(a: i128, b: i128, c: i128, d: i128) -> Result<Ordering, Overflow>
    requires b { pos 0 <ℤ b }
    requires d { pos 0 <ℤ d }
    ensures order { IfOk result (λ order. IsOrder order (a *ℤ d) (c *ℤ b)) }
    ensures products { OnOk result (FitsI128 (a *ℤ d) × FitsI128 (c *ℤ b)) }
    ensures overflow { IfErr result (IsFirstProduct a b c d) }
{
    let left = mul(a, d)?;
    let right = mul(c, b)?;
    Ok(left.cmp(&right))
}

/// A number as `whole * scale + part`.
#[derive(Clone, Copy)]
struct ScaledParts {
    whole: i128,
    part: i128,
}

/// The floor of num * scale / den, from the quotient and the remainder of `num`.
fn floor_parts(num: i128, den: i128, scale: i128) -> ScaledParts
    requires den { pos 0 <ℤ den }
    requires scale { pos 0 ≤ℤ scale }
    ensures floor { IsFloor (result.whole *ℤ scale +ℤ result.part) (num *ℤ scale) den }
    ensures low { pos 0 ≤ℤ result.part }
    ensures high { result.part ≤ℤ scale }
{
    let whole = num.div_euclid(den);
    let rest = num.rem_euclid(den);
    let part = times_part(rest as u128, scale as u128, den as u128).quotient as i128;
    ScaledParts { whole, part }
}

/// The sum whole * scale + part, exactly where it lies in i128.
fn scaled_sum(whole: i128, scale: i128, part: i128) -> Option<i128>
    requires low { pos 0 ≤ℤ part }
    requires high { part ≤ℤ scale }
    ensures { let sum = whole *ℤ scale +ℤ part in SomeIff result (FitsI128 sum) sum }
{
    if whole < 0 {
        // The product and what is taken from it have one sign: so it leaves i128 only where the sum does.
        (whole + 1).checked_mul(scale)?.checked_sub(scale - part)
    } else {
        whole.checked_mul(scale)?.checked_add(part)
    }
}

/// The floor of num * scale / den; refused exactly where this floor leaves i128, and not where the product alone does.
pub fn floor_scaled(num: i128, den: i128, scale: i128) -> Result<i128, Overflow>
    requires den { pos 0 <ℤ den }
    requires scale { pos 0 ≤ℤ scale }
    ensures floor { IfOk result (λ floor. IsFloor floor (num *ℤ scale) den) }
    ensures overflow { IfErr result (IsFloorOverflow num den scale) }
{
    let parts = floor_parts(num, den, scale);
    match scaled_sum(parts.whole, scale, parts.part) {
        Some(floor) => Ok(floor),
        None => Err(Overflow {
            op: Op::Mul,
            a: num,
            b: scale,
        }),
    }
}
