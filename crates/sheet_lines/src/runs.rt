// The runs of a line `steps`, as the potentials that they stand for.
ghost use Rattle.std.specs.Prelude.{◌≡◌, ◌++◌, replicate, IfOk, OnOk};
ghost use Rattle.dossier_terms.specs.Runs.{values_of};
ghost use Rattle.leaf_check.specs.Runs.{AreRunNumbers, OfRuns};

use leaf_check::runs::{run_begin, run_number};
use line_in::LineNumbers;
use std::alloc::{AllocError, Global};

/// Adds a number so many times.
fn push_times(row: &mut Vec<i64>, number: i64, times: u32) -> Result<(), AllocError>
    ensures { OnOk result (row.new.items ≡ row.old.items ++ replicate times number) }
{
    for _ in 0..times {
        row.push(number)?;
    }
    Ok(())
}

/// The potentials that the runs stand for, one for each minute before `past`.
pub fn run_values(alloc: Global, pairs: &LineNumbers<'_>, past: u32) -> Result<Vec<i64>, AllocError>
    requires { AreRunNumbers pairs.now }
    ensures { IfOk result (λ row. OfRuns pairs.now (λ runs. row.items ≡ values_of past runs)) }
{
    let mut row = Vec::new(alloc);
    for n in 0..pairs.len() / 2 {
        let from = run_begin(pairs, n, past);
        let next = run_begin(pairs, n + 1, past);
        push_times(&mut row, run_number(pairs, n), next.saturating_sub(from))?;
    }
    Ok(row)
}
