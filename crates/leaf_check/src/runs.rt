// The runs of a line `steps`: whether they are runs, and their numbers in the table of a team.
ghost use Rattle.std.specs.Prelude.{◌≡◌, ◌≢◌, ◌≤◌, ◌<◌, ◌+◌, ◌*◌, ◌-◌, ◌^◌, ℕ, List, length, pos, slice_index_or, MatchBool};
ghost use Rattle.std.specs.List.{flat_map};
ghost use Rattle.dossier_terms.specs.Runs.{Run, AreRuns, values_of};
ghost use Rattle.line_in.specs.Fields.{run_numbers};
ghost use Rattle.potentials.specs.Table.{phi};
ghost use Rattle.leaf_check.specs.Rows.{KeepsTable};
ghost use Rattle.leaf_check.specs.Runs.{AreRunNumbers, CanSetRuns, GoesOn, OfRuns, begin_of_run, number_of_run};

use line_in::LineNumbers;
use potentials::Table;

/// The minute at which the run with this number begins; `past` where there is none.
pub fn run_begin(pairs: &LineNumbers<'_>, n: usize, past: u32) -> u32
    requires { AreRunNumbers pairs.now }
    ensures { OfRuns pairs.now (λ runs. result ≡ begin_of_run past runs n) }
{
    if n < pairs.len() / 2 {
        pairs.get(2 * n) as u32
    } else {
        past
    }
}

/// The number of the run with this number.
pub fn run_number(pairs: &LineNumbers<'_>, n: usize) -> i64
    requires runs { AreRunNumbers pairs.now }
    requires known { 2 * n + 1 < length pairs.now }
    ensures { OfRuns pairs.now (λ runs. result ≡ number_of_run runs n) }
{
    // What holds of the line: it has no more numbers than a usize counts.
    let _count = pairs.len();
    pairs.get(2 * n + 1)
}

/// Whether the run behind the one with this number begins later than it and before `past`, with another number.
fn goes_on(pairs: &LineNumbers<'_>, n: usize, past: u32) -> bool
    requires runs { AreRunNumbers pairs.now }
    requires two { 2 * n + 3 < length pairs.now }
    ensures { OfRuns pairs.now (λ runs. MatchBool result
        (GoesOn past runs n) (GoesOn past runs n → ⊥)) }
{
    // What holds of the line: it has no more numbers than a usize counts.
    let _count = pairs.len();
    let from = run_begin(pairs, n, past);
    let next = run_begin(pairs, n + 1, past);
    if next <= from {
        return false;
    }
    if next >= past {
        return false;
    }
    let last = pairs.get(2 * n + 1);
    let number = pairs.get(2 * n + 3);
    if number == last {
        return false;
    }
    true
}

/// Whether the runs begin at minute `first`, rise, begin before `past`, and no two neighbours have one number.
pub fn are_runs(pairs: &LineNumbers<'_>, first: u32, past: u32) -> bool
    requires { AreRunNumbers pairs.now }
    ensures { OfRuns pairs.now (λ runs. MatchBool result
        (AreRuns first past runs) (AreRuns first past runs → ⊥)) }
{
    let from = run_begin(pairs, 0, past);
    if from != first {
        return false;
    }
    for n in 0..pairs.len() / 2 - 1 {
        if !goes_on(pairs, n, past) {
            return false;
        }
    }
    true
}

/// Sets the potentials of task `j` at the minutes of the runs to their numbers, the last one's up to before `past`.
pub fn set_runs(table: &mut Table, j: u32, past: u32, pairs: &LineNumbers<'_>)
    requires runs { AreRunNumbers pairs.now }
    requires room { CanSetRuns table.old j past pairs.now }
    ensures given { (runs : List Run) (first : ℕ) → pairs.now ≡ flat_map run_numbers runs
        → AreRuns first past runs → first < past → (m : ℕ) → first + m < past
        → phi table.new j (first + m) ≡ slice_index_or (values_of past runs) m (pos 0) }
    ensures others { (h t : ℕ) → h ≢ j → phi table.new h t ≡ phi table.old h t }
    ensures table { KeepsTable table.old table.new }
{
    for n in 0..pairs.len() / 2 {
        let from = run_begin(pairs, n, past);
        let next = run_begin(pairs, n + 1, past);
        table.fill(j, from, next - 1, pairs.get(2 * n + 1));
    }
}
