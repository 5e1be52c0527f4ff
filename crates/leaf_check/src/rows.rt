// The numbers of a line of potentials, in the table of a team.
ghost use Rattle.std.specs.Prelude.{◌≡◌, ◌≢◌, ◌<◌, ◌+◌, ◌^◌, ℕ, length, pos, slice_index_or};
ghost use Rattle.potentials.specs.Table.{phi};
ghost use Rattle.leaf_check.specs.Rows.{HasRoomAt, KeepsTable};

use line_in::LineNumbers;
use potentials::Table;

/// Sets the potentials of task `j` at the minutes from `first` on to the given numbers.
pub fn set_potentials(table: &mut Table, j: u32, first: u32, given: &LineNumbers<'_>)
    requires room { HasRoomAt table.old j first (length given.now) }
    requires minutes { first + length given.now < 2 ^ 32 }
    ensures given { (m : ℕ) → m < length given.now
        → phi table.new j (first + m) ≡ slice_index_or given.now m (pos 0) }
    ensures others { (h t : ℕ) → h ≢ j → phi table.new h t ≡ phi table.old h t }
    ensures table { KeepsTable table.old table.new }
{
    for m in 0..given.len() {
        table.set(j, first + m as u32, given.get(m));
    }
}
