// The potentials of a team, by the cells, where rewards may change with the minute.
ghost use Rattle.std.specs.Prelude.{◌≡◌, ◌≤◌, ◌<◌, ℕ, length, ◌+◌};
ghost use Rattle.crew_terms.specs.Limits.{IsPermittedVisit, tasks_in, teams_in};
ghost use Rattle.crew_terms.specs.declared.TheConstants.{LAST_MINUTE};
ghost use Rattle.label_pricing.specs.Best.{IsBest};
ghost use Rattle.label_pricing.specs.Cells.{AreCells, IsGrid};
ghost use Rattle.label_pricing.specs.Turns.{AreTurns, IsEnd, IsStart, IsTurn};
ghost use Rattle.potentials.specs.Table.{IsTableOf, phi};

use crate::after::label_at;
use crate::labels::Cell;
use crate::turns::Turn;
use node_limits::Limits;
use potentials::Table;
use visit_rewards::Rewards;

/// Sets the potentials of task `j` at each minute at which the team may begin it. It takes no memory.
fn fill_task_minutes<R: Rewards>(
    limits: &Limits<'_>,
    k: u32,
    prices: &R,
    grid: &[Cell],
    start: u32,
    end: u32,
    turn: Turn,
    j: u32,
    table: &mut Table,
)
    requires team { k < teams_in limits.now.limits }
    requires task { j < tasks_in limits.now.limits }
    requires prices { R.AreOf limits.now.limits prices.now }
    requires turn { IsTurn limits.now.limits k j turn }
    requires start { IsStart limits.now.limits k start }
    requires end { IsEnd limits.now.limits k end }
    requires day { end ≤ LAST_MINUTE + 1 }
    requires grid { IsGrid (length limits.now.limits.instance.places) grid.now }
    requires cells { AreCells limits.now.limits k (R.earned limits.now.limits prices.now k) start
        end grid.now }
    requires table { IsTableOf limits.now.limits.instance table.old }
    ensures table { IsTableOf limits.now.limits.instance table.new }
    ensures here { (t : ℕ) → IsPermittedVisit limits.now.limits k j t
        → IsBest limits.now.limits k (R.earned limits.now.limits prices.now k) j t
        (phi table.new j t) }
    ensures others { (h t : ℕ) → h < j → phi table.new h t ≡ phi table.old h t }
{
    // It is known from here on that the windows lie in those of the tasks.
    let _ = limits.instance();
    for t in turn.first..turn.end {
        let value = label_at(limits, k, prices, grid, end, turn, j, t).value;
        table.set(j, t, value);
    }
}

/// Sets the potentials of each task at the minutes at which the team may begin it. It takes no memory.
pub(crate) fn fill_minutes<R: Rewards>(
    limits: &Limits<'_>,
    k: u32,
    prices: &R,
    turns: &[Turn],
    grid: &[Cell],
    start: u32,
    end: u32,
    table: &mut Table,
)
    requires team { k < teams_in limits.now.limits }
    requires prices { R.AreOf limits.now.limits prices.now }
    requires turns { AreTurns limits.now.limits k turns.now }
    requires start { IsStart limits.now.limits k start }
    requires end { IsEnd limits.now.limits k end }
    requires day { end ≤ LAST_MINUTE + 1 }
    requires grid { IsGrid (length limits.now.limits.instance.places) grid.now }
    requires cells { AreCells limits.now.limits k (R.earned limits.now.limits prices.now k) start
        end grid.now }
    requires table { IsTableOf limits.now.limits.instance table.old }
    ensures table { IsTableOf limits.now.limits.instance table.new }
    ensures best { (j t : ℕ) → IsPermittedVisit limits.now.limits k j t
        → IsBest limits.now.limits k (R.earned limits.now.limits prices.now k) j t
        (phi table.new j t) }
{
    for j in 0..limits.instance().tasks() as u32 {
        let turn = turns[j as usize];
        fill_task_minutes(limits, k, prices, grid, start, end, turn, j, table);
    }
}
