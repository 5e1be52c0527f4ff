// Tests of exact numbers, at the ends of i128 and over small denominators.
use crate::asserts::{same, same_at};
use crew_num::{
    Mixed, Op, Overflow, add, cmp_ratio, cross, floor_scaled, gcd, gcd_of, mixed_add, mixed_gap,
    mixed_times, mul, sub,
};
use std::cmp::Ordering;

const MAX: i128 = i128::MAX;

const MIN: i128 = i128::MIN;

#[test]
fn ends_of_sums_differences_and_products(rt: HostRuntime) {
    for (op, a, b, exact) in [
        (Op::Add, MAX, 0, Some(MAX)),
        (Op::Add, MAX, 1, None),
        (Op::Add, MIN, -1, None),
        (Op::Add, MIN, MAX, Some(-1)),
        (Op::Sub, MIN, 0, Some(MIN)),
        (Op::Sub, MIN, 1, None),
        (Op::Sub, -1, MIN, Some(MAX)),
        (Op::Sub, 0, MIN, None),
        (Op::Mul, MIN, 1, Some(MIN)),
        (Op::Mul, MIN, -1, None),
        (Op::Mul, MAX, -1, Some(-MAX)),
        (Op::Mul, MAX, 2, None),
        (Op::Mul, MIN, 0, Some(0)),
        (Op::Mul, 1 << 63, -(1 << 64), Some(MIN)),
        (Op::Mul, 1 << 63, 1 << 64, None),
    ] {
        let result = match op {
            Op::Add => add(a, b),
            Op::Sub => sub(a, b),
            Op::Mul => mul(a, b),
        };
        same_at(&rt, &result, &exact.ok_or(Overflow { op, a, b }), &(a, b));
    }
}

/// The fault of an operation that leaves i128.
fn overflow<T>(op: Op, a: i128, b: i128) -> Result<T, Overflow> {
    Err(Overflow { op, a, b })
}

#[test]
fn first_overflow_of_a_difference_of_products(rt: HostRuntime) {
    for (a, b, c, d, told) in [
        (3, 5, 2, 4, Ok(7)),
        (MAX, 2, MAX, 3, overflow(Op::Mul, MAX, 2)),
        (1, 2, MAX, 3, overflow(Op::Mul, MAX, 3)),
        (1, MAX, -1, 1, overflow(Op::Sub, MAX, -1)),
    ] {
        same_at(&rt, &cross(a, b, c, d), &told, &(a, b, c, d));
    }
}

#[test]
fn common_divisors(rt: HostRuntime) {
    for (a, b, divisor) in [
        (0, 0, 0),
        (0, -7, 7),
        (12, -18, 6),
        (MIN, MIN, 1 << 127),
        (MIN, 6, 2),
        (MAX, MIN, 1),
    ] {
        same_at(&rt, &gcd(a, b), &divisor, &(a, b));
    }
    same(&rt, &gcd_of(3 << 100, 1 << 101), &(1 << 100));
}

#[test]
fn orders_of_ratios(rt: HostRuntime) {
    for (a, p, b, q, told) in [
        (1, 2, 2, 3, Ok(Ordering::Less)),
        (-1, 3, -2, 6, Ok(Ordering::Equal)),
        (MAX, 1, MIN, 1, Ok(Ordering::Greater)),
        (MAX, 2, 1, 2, overflow(Op::Mul, MAX, 2)),
        (1, 2, MAX, 1, overflow(Op::Mul, MAX, 2)),
    ] {
        same_at(&rt, &cmp_ratio(a, p, b, q), &told, &(a, p, b, q));
    }
}

#[test]
fn floors_of_scaled_ratios(rt: HostRuntime) {
    for (num, den, scale, floor) in [
        (-1, 3, 840_000_000, Some(-280_000_000)),
        (1, 3, 100, Some(33)),
        (-1, 3, 100, Some(-34)),
        (7, 2, 0, Some(0)),
        (MAX, MAX, MAX, Some(MAX)),
        (MIN, MAX, MAX, Some(MIN)),
        (MIN, MAX - 1, MAX, None),
        (MAX, 2, 2, Some(MAX)),
        (MAX, 2, 3, None),
        (MIN, 1, 1, Some(MIN)),
        (MIN, 1, 2, None),
    ] {
        let fault = Overflow {
            op: Op::Mul,
            a: num,
            b: scale,
        };
        same_at(
            &rt,
            &floor_scaled(num, den, scale),
            &floor.ok_or(fault),
            &(num, den, scale),
        );
    }
}

#[test]
fn numbers_over_three(rt: HostRuntime) {
    let mixed = |whole, part| Mixed { whole, part };
    same(&rt, &mixed_add(mixed(0, 2), mixed(0, 2), 3), &mixed(1, 1));
    same(&rt, &mixed_gap(mixed(1, 0), mixed(0, 2), 3), &mixed(0, 1));
    same(&rt, &mixed_gap(mixed(0, 2), mixed(1, 0), 3), &mixed(0, 1));
    same(&rt, &mixed_times(mixed(0, 2), 3, 3), &mixed(2, 0));
}

#[test]
fn numbers_over_the_greatest_denominator(rt: HostRuntime) {
    let q = MAX as u128;
    let most = Mixed {
        whole: 1 << 40,
        part: q - 1,
    };
    let double = Mixed {
        whole: (1 << 41) + 1,
        part: q - 2,
    };
    same(&rt, &mixed_add(most, most, q), &double);
    let product = Mixed {
        whole: 1_000_000 * (1 << 40) + 999_999,
        part: q - 1_000_000,
    };
    same(&rt, &mixed_times(most, 1_000_000, q), &product);
}
