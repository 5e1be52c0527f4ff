// The lines of a leaf: its prices, and the worths and potentials of its teams.
ghost use Rattle.cert_format.specs.Typed.{ReadsAs};

use crate::kinds::{Expect, LineKind};
use field_table::{LineWords, fields};
use line_in::LineFault;
use line_in::numbers::{LineNumbers, read_prices, read_rest, read_runs};
use line_in::ranges::POTENTIAL;
use line_in::shape::{has_pairs_at, has_row, has_shape};

/// Reads the line `price`: a price of each of so many tasks, in 1/D of a task, or tells its first fault.
pub fn read_price<'a>(words: LineWords<'a>, tasks: u32) -> Result<LineNumbers<'a>, LineFault>
    ensures { ReadsAs (Expect.Price tasks) LineKind.Price words.entry result }
{
    if !has_shape(&words, b"price", tasks as usize) {
        return Err(LineFault::Shape);
    }
    read_prices(words, 1)
}

/// Reads the line `extra` of this task, with so many prices of its required pairs, or tells its first fault.
pub fn read_extra<'a>(
    words: LineWords<'a>,
    task: u32,
    count: u32,
) -> Result<LineNumbers<'a>, LineFault>
    ensures { ReadsAs (Expect.Extra task count) (LineKind.Extra task) words.entry result }
{
    if !has_row(&words, b"extra", task, count) {
        return Err(LineFault::Shape);
    }
    read_prices(words, 2)
}

/// Reads a line `worth`, or tells its first fault.
pub fn read_worth(words: LineWords<'_>) -> Result<i64, LineFault>
    ensures { ReadsAs Expect.Worth LineKind.Worth words.entry result }
{
    if !has_shape(&words, b"worth", 1) {
        return Err(LineFault::Shape);
    }
    fields!(&words, worth: Number(0, i64::MAX); else fault => LineFault::Number);
    Ok(worth)
}

/// Reads the line `phi` of this task, with so many potentials, one for each permitted minute, or
/// tells its first fault.
pub fn read_phi<'a>(
    words: LineWords<'a>,
    task: u32,
    count: u32,
) -> Result<LineNumbers<'a>, LineFault>
    ensures { ReadsAs (Expect.Phi task count) (LineKind.Phi task) words.entry result }
{
    if !has_row(&words, b"phi", task, count) {
        return Err(LineFault::Shape);
    }
    read_rest(words, 2, POTENTIAL)
}

/// Reads the line `steps` of this task: runs of potentials, each its first minute and its number, or
/// tells its first fault.
pub fn read_steps<'a>(words: LineWords<'a>, task: u32) -> Result<LineNumbers<'a>, LineFault>
    ensures { ReadsAs (Expect.Steps task) (LineKind.Steps task) words.entry result }
{
    if !has_pairs_at(&words, b"steps", task) {
        return Err(LineFault::Shape);
    }
    read_runs(words, 2)
}
