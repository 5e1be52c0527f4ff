// The potentials of a team at a task, by runs of equal numbers.
ghost use Rattle.std.specs.Prelude.{◌≡◌, ◌≤◌, ◌<◌, ◌-◌, ℕ, length};
ghost use Rattle.std.specs.List.{flat_map};
ghost use Rattle.crew_terms.specs.Words.{line_text};
ghost use Rattle.crew_io.specs.Puts.{Puts};
ghost use Rattle.dossier_terms.specs.Lines.{run_words, steps_line};
ghost use Rattle.dossier_terms.specs.Runs.{runs_of};
ghost use Rattle.line_out.specs.Parts.{next_word};
ghost use Rattle.potentials.specs.Table.{CoversMinute};
ghost use Rattle.dossier_out.specs.Steps.{last_behind, row_of, run_at};

use crate::words::number;
use crew_io::put::put_all;
use crew_io::sink::{Sink, WriteFault};
use line_out::{Part, put_next};
use potentials::Table;

/// The words of a run, behind others of a line.
fn put_run<K: Sink>(out: &mut K, t: u32, value: i64) -> Result<(), WriteFault>
    ensures { Puts K.Sink (flat_map next_word (run_words (record { from = t; value = value })))
        out.old out.new result }
{
    put_next(out, &number(t))?;
    put_next(out, &Part::Signed(value))
}

/// The words of a run that begins here, where the number is another than the last one.
fn put_change<K: Sink>(out: &mut K, last: Option<i64>, t: u32, value: i64) -> Result<(), WriteFault>
    ensures { Puts K.Sink (flat_map next_word (flat_map run_words (run_at last t value))) out.old
        out.new result }
{
    match last {
        Some(before) if before == value => Ok(()),
        _ => put_run(out, t, value),
    }
}

/// The potential at the minute before this one, if that is not before `first`.
fn last_before(table: &Table, j: u32, first: u32, t: u32) -> Option<i64>
    requires task { j < length table.now }
    requires order { first ≤ t }
    requires minutes { (u : ℕ) → first ≤ u → u < t → CoversMinute table.now j u }
    ensures { result ≡ last_behind None (row_of table.now j first (t - first)) }
{
    if t == first {
        return None;
    }
    Some(table.get(j, t - 1))
}

/// The words of the runs of a task's potentials at the minutes from `first` to before `end`.
fn put_runs<K: Sink>(
    out: &mut K,
    table: &Table,
    j: u32,
    first: u32,
    end: u32,
) -> Result<(), WriteFault>
    requires task { j < length table.now }
    requires order { first ≤ end }
    requires minutes { (t : ℕ) → first ≤ t → t < end → CoversMinute table.now j t }
    ensures { Puts K.Sink (flat_map next_word
        (flat_map run_words (runs_of first (row_of table.now j first (end - first)))))
        out.old out.new result }
{
    for t in first..end {
        put_change(out, last_before(table, j, first, t), t, table.get(j, t))?;
    }
    Ok(())
}

/// The line of a task's potentials at the minutes from `first` to before `end`.
pub(crate) fn put_steps<K: Sink>(
    out: &mut K,
    table: &Table,
    j: u32,
    first: u32,
    end: u32,
) -> Result<(), WriteFault>
    requires task { j < length table.now }
    requires order { first ≤ end }
    requires minutes { (t : ℕ) → first ≤ t → t < end → CoversMinute table.now j t }
    ensures { Puts K.Sink (line_text (steps_line j
        (runs_of first (row_of table.now j first (end - first)))))
        out.old out.new result }
{
    put_all(out, b"steps")?;
    put_next(out, &number(j))?;
    put_runs(out, table, j, first, end)?;
    put_all(out, b"\n")
}
