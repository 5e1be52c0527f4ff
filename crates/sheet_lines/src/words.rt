// The words of the lines of a sheet that no dossier has.
ghost use Rattle.std.specs.Prelude.{◌≡◌, ◌≤◌, ◌<◌, ◌↔◌, codes, length, IsTrue, if◌then◌else◌};
ghost use Rattle.crew_terms.specs.Instance.{task_of};
ghost use Rattle.crew_terms.specs.Leaf.{IsPrice};
ghost use Rattle.dossier_terms.specs.Ranges.{AreNumbers, IsRow};
ghost use Rattle.dossier_terms.specs.Rules.{IsShape};
ghost use Rattle.sheet_terms.specs.Lines.{bound_line, minutes_line, squeeze_line};
ghost use Rattle.squeeze_terms.specs.MinutePrices.{is_joint, price_count};
ghost use Rattle.sheet_lines.specs.Spelled.{IsPricesOf, ReadsSpelling};

use crew_instance::{Instance, Task};
use field_table::{Field, Kind, LineWords, Words, field};
use line_in::numbers::{read_in, read_prices};
use line_in::shape::{has_row, has_shape, is_word};
use line_in::{LineFault, LineNumbers};
use minute_prices::{is_joint, price_count};

/// Whether it is the first line of a sheet, `crew squeeze 1`.
pub fn is_first(words: &LineWords<'_>) -> bool
    ensures { IsTrue result ↔ (words.now ≡ squeeze_line) }
{
    if !has_shape(words, b"crew", 2) {
        return false;
    }
    if !is_word(words, 1, b"squeeze") {
        return false;
    }
    is_word(words, 2, b"1")
}

/// Reads the line `bound` of a sheet of so many tasks, or tells its first fault.
pub fn read_bound(words: LineWords<'_>, tasks: u32) -> Result<u32, LineFault>
    ensures { ReadsSpelling (IsShape (codes "bound") 1 words.entry) bound_line (λ l. l ≤ tasks)
        words.entry result }
{
    if !has_shape(&words, b"bound", 1) {
        return Err(LineFault::Shape);
    }
    let bound = read_in(&words, 1, &field!(Number(0, tasks as i64)))?;
    Ok(bound as u32)
}

/// Whether the line is the first word of the prices of task `j`, its number, and so many words after these.
fn has_prices(words: &LineWords<'_>, task: &Task, j: u32) -> bool
    requires { task.now.latest ≤ 2880 }
    ensures { IsTrue result ↔ IsPricesOf task.now j words.now }
{
    let count = price_count(task);
    if is_joint(task) {
        has_row(words, b"clock", j, count)
    } else {
        has_row(words, b"price", j, count)
    }
}

/// Reads the line of the prices of task `j`, in 1/D of a task: `clock` with a price for each minute of its own window, if it
/// is joint, else `price` with one; or tells its first fault.
pub fn read_minutes<'a>(
    words: LineWords<'a>,
    instance: &Instance,
    j: u32,
) -> Result<LineNumbers<'a>, LineFault>
    requires { j < length instance.now.tasks }
    ensures { let count = price_count (task_of instance.now j) in
        ReadsSpelling (IsRow (minutes_line instance.now) j count words.entry)
        (minutes_line instance.now j) (AreNumbers IsPrice count) words.entry result }
{
    if !has_prices(&words, instance.task(j), j) {
        return Err(LineFault::Shape);
    }
    read_prices(words, 2)
}
