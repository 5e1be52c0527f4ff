// Common factors of rows.

ghost use Rattle.std.specs.Prelude.{◌<◌, ◌^◌};
ghost use Rattle.kept_rows.specs.Factor.{IsCovered};
ghost use Rattle.kept_rows.specs.Replacement.{IsDivided, IsFactor};

use crate::quotients::Factor;

/// The greatest common factor of the numbers, which divides the number `start`. It is sought from there on.
pub fn factor_of(row: &[i128], start: u128) -> u128
    requires { IsCovered row.now start }
    ensures { IsFactor row.now result }
{
    let mut factor = Factor::of(start);
    for a in row {
        factor = factor.with(*a);
        if factor.value == 1 {
            return 1;
        }
    }
    factor.value
}

/// Divides the numbers by their greatest common factor, which divides the number `start`.
pub fn divide(row: &mut [i128], start: u128)
    requires covered { IsCovered row.old start }
    requires some { 0 < start }
    requires fits { start < 2 ^ 127 }
    ensures { IsDivided row.old row.new }
{
    let factor = Factor::of(factor_of(row, start));
    if factor.value == 1 {
        return;
    }
    for j in 0..row.len() {
        row[j] = factor.quotient(row[j]);
    }
}
