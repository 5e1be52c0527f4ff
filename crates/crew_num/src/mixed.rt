// Numbers over a denominator q, each as a whole and a part, so that no product with q is formed.
ghost use Rattle.std.specs.Prelude.{◌≡◌, pos, ◌<◌, ◌≤◌, ◌^◌, ◌+ℤ◌, ◌-ℤ◌, ◌*ℤ◌, ◌≤ℤ◌, ◌<ℤ◌, unsigned_abs};
ghost use Rattle.std.specs.Int.{int_max};
ghost use Rattle.crew_num.specs.Mixed.{IsMixed, value};

use crate::quotients::{add_parts, times_part};

/// The greatest whole of a number that the calls below take: 2^40.
pub const MOST_WHOLE: i64 = 1_099_511_627_776;

/// The greatest number that `mixed_times` takes as a factor.
pub const MOST_FACTOR: u32 = 1_000_000;

/// A number over a denominator q from 1 to 2^127 - 1: it stands for `whole * q + part`, with a part below q.
#[derive(Clone, Copy, Debug, PartialEq, Eq)]
pub struct Mixed {
    pub whole: i64,
    pub part: u128,
}

/// The sum, exactly.
pub fn mixed_add(a: Mixed, b: Mixed, q: u128) -> Mixed
    requires q { q < 2 ^ 127 }
    requires a { IsMixed a q MOST_WHOLE }
    requires b { IsMixed b q MOST_WHOLE }
    ensures value { value result q ≡ value a q +ℤ value b q }
    ensures mixed { IsMixed result q (a.whole +ℤ b.whole +ℤ pos 1) }
{
    let parts = add_parts(a.part, b.part, q);
    Mixed {
        whole: a.whole + b.whole + parts.quotient as i64,
        part: parts.rest,
    }
}

/// What a number is above one of a lower whole.
fn difference(high: Mixed, low: Mixed, q: u128) -> Mixed
    requires high { IsMixed high q MOST_WHOLE }
    requires low { IsMixed low q MOST_WHOLE }
    requires order { low.whole <ℤ high.whole }
    ensures value { value result q ≡ value high q -ℤ value low q }
    ensures mixed { IsMixed result q high.whole }
{
    if low.part <= high.part {
        Mixed {
            whole: high.whole - low.whole,
            part: high.part - low.part,
        }
    } else {
        Mixed {
            whole: high.whole - low.whole - 1,
            part: q - (low.part - high.part),
        }
    }
}

/// The distance, exactly.
pub fn mixed_gap(a: Mixed, b: Mixed, q: u128) -> Mixed
    requires a { IsMixed a q MOST_WHOLE }
    requires b { IsMixed b q MOST_WHOLE }
    ensures value { value result q ≡ pos (unsigned_abs (value a q -ℤ value b q)) }
    ensures mixed { IsMixed result q (int_max a.whole b.whole) }
{
    if a.whole < b.whole {
        return difference(b, a, q);
    }
    if b.whole < a.whole {
        return difference(a, b, q);
    }
    Mixed {
        whole: 0,
        part: a.part.abs_diff(b.part),
    }
}

/// The product with a whole number, exactly.
pub fn mixed_times(a: Mixed, by: u32, q: u128) -> Mixed
    requires q { q < 2 ^ 127 }
    requires a { IsMixed a q MOST_WHOLE }
    requires by { by ≤ MOST_FACTOR }
    ensures value { value result q ≡ value a q *ℤ pos by }
    ensures mixed { IsMixed result q ((a.whole +ℤ pos 1) *ℤ pos by) }
{
    let parts = times_part(a.part, by as u128, q);
    Mixed {
        whole: a.whole * by as i64 + parts.quotient as i64,
        part: parts.rest,
    }
}
