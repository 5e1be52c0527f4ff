// The numbers at the end of a line, copied out of it.
ghost use Rattle.std.specs.Prelude.{◌≡◌, IfOk};

use line_in::LineNumbers;
use std::alloc::{AllocError, Global};

/// The numbers at the end of a line, copied out of it.
pub fn number_row(alloc: Global, numbers: &LineNumbers<'_>) -> Result<Vec<i64>, AllocError>
    ensures { IfOk result (λ row. row.items ≡ numbers.now) }
{
    let mut row = Vec::with_capacity(alloc, numbers.len())?;
    for n in 0..numbers.len() {
        row.push(numbers.get(n))?;
    }
    Ok(row)
}
