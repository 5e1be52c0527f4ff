// Prices rounded down.
use crate::asserts::same;
use frac_master::round_price;

#[test]
fn rounds_down(rt: HostRuntime) {
    same(&rt, &round_price(1, 3), &280_000_000);
    same(&rt, &round_price(-1, 3), &-280_000_000);
    same(&rt, &round_price(1, 840_000_001), &0);
    same(&rt, &round_price(-1, 840_000_001), &-1);
}

/// A quotient that leaves 128 bits is cut off at the limit of its sign.
#[test]
fn cuts_off(rt: HostRuntime) {
    same(&rt, &round_price(i128::MAX, 1), &840_000_000_000_000);
    same(&rt, &round_price(i128::MIN, 1), &-840_000_000_000_000);
}
