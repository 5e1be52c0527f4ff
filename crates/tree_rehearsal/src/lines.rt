// Lines of the dense inverse: of each row of the master its basic variable, and the inverse's numbers.

use crate::numbers::{product, quotient, rounded, wide};
use std::alloc::{AllocError, Global};

/// The line of a row: its basic variable and that one's value, the inverse's numbers, and the number that the entering
/// variable has there.
#[derive(Drop)]
pub(crate) struct Line {
    pub(crate) basic: usize,
    pub(crate) value: i64,
    pub(crate) entry: i64,
    pub(crate) inverse: Vec<i64>,
}

/// Takes so many times the numbers from these.
pub(crate) fn subtract(numbers: &mut [i64], others: &[i64], times: i64) {
    for (number, other) in numbers.iter_mut().zip(others) {
        if *other != 0 {
            *number = number.saturating_sub(product(times, *other));
        }
    }
}

/// The sum of the products of the numbers.
pub(crate) fn sum_of_products(numbers: &[i64], others: &[i64]) -> i64 {
    let mut sum = 0i128;
    for (number, other) in numbers.iter().zip(others) {
        sum = sum.saturating_add(wide(*number, *other));
    }
    rounded(sum)
}

impl Line {
    /// A line of zeros; AllocError where there is no memory.
    pub(crate) fn new(alloc: Global, rows: usize) -> Result<Line, AllocError> {
        Ok(Line {
            basic: 0,
            value: 0,
            entry: 0,
            inverse: vec![in alloc; 0; rows]?,
        })
    }

    /// Makes the line one of the unit matrix.
    pub(crate) fn reset(&mut self, at: usize, one: i64) {
        for number in &mut self.inverse {
            *number = 0;
        }
        if let Some(number) = self.inverse.get_mut(at) {
            *number = one;
        }
        self.basic = at;
    }

    /// Turns all signs of the inverse's numbers.
    pub(crate) fn negate(&mut self) {
        for number in &mut self.inverse {
            *number = number.saturating_neg();
        }
    }

    /// Divides the line by its entry, where that isn't 0.
    pub(crate) fn divide(&mut self) {
        let by = self.entry;
        if by == 0 {
            return;
        }
        for number in &mut self.inverse {
            if *number != 0 {
                *number = quotient(*number, by);
            }
        }
        self.value = quotient(self.value, by);
    }

    /// Clears the entry by the numbers of the pivot's line, where that has this value.
    pub(crate) fn clear(&mut self, pivot: &[i64], value: i64) {
        let times = self.entry;
        if times != 0 {
            subtract(&mut self.inverse, pivot, times);
            self.value = self.value.saturating_sub(product(times, value));
        }
    }
}
