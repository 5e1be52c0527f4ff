// Where the rows of a chart are, and minutes as clocks show them.
ghost use Rattle.std.specs.Prelude.{◌≡◌, ◌≤◌, ◌<◌, length};
ghost use Rattle.crew_terms.specs.declared.TheConstants.{LAST_MINUTE};
ghost use Rattle.field_table.specs.Clocks.{clock_text};
ghost use Rattle.plan_chart.specs.Rows.{open_top as open_top_of, row_top as row_top_of};

use crate::counts::open_before;
use crew_instance::{Instance, Plan};
use crew_terms::LAST_MINUTE;
use field_table::write_clock;

/// How high the hours are that stand above the rows. A minute is as wide as a unit is high.
pub const TOP: u64 = 16;

/// How high a row is.
pub const ROW: u64 = 12;

/// What is left free above the rows of open tasks.
pub const GAP: u64 = 4;

/// A minute as a clock shows it.
pub fn clock(minute: u32) -> [u8; 5]
    requires { minute ≤ LAST_MINUTE }
    ensures { result ≡ clock_text minute }
{
    let mut text = [0u8; 5];
    write_clock(minute, &mut text);
    text
}

/// How far down a row begins. The rows of the teams come first, by number.
pub fn row_top(row: u32) -> u64
    ensures top { result ≡ row_top_of row }
    ensures low { result < 1_000_000_000_000 }
{
    TOP + ROW * row as u64
}

/// How far down the row of open task `j` begins. These rows stand below those of the teams, by number.
pub fn open_top(instance: &Instance, plan: &Plan, j: u32) -> u64
    requires { j ≤ length plan.now }
    ensures top { result ≡ open_top_of instance.now plan.now j }
    ensures low { result < 2_000_000_000_000 }
{
    let below = row_top(instance.teams() as u32);
    let open = open_before(plan, j);
    below + ROW * open as u64 + GAP
}
