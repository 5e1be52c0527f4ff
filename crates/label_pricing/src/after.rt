// What can be earned after a visit, and from a visit on, by the cells of later minutes.
ghost use Rattle.std.specs.Prelude.{◌≡◌, ◌≤◌, ◌<◌, ◌+◌, ℕ, ℤ, length};
ghost use Rattle.crew_terms.specs.Rules.{IsInstance};
ghost use Rattle.crew_terms.specs.Limits.{IsPermittedVisit, Limits as NodeLimits, tasks_in, teams_in};
ghost use Rattle.crew_terms.specs.declared.TheConstants.{LAST_MINUTE};
ghost use Rattle.label_pricing.specs.Best.{IsAfter, IsBest, IsFirst};
ghost use Rattle.label_pricing.specs.Cells.{AreCells, IsGrid};
ghost use Rattle.label_pricing.specs.Turns.{IsEnd, IsStart, IsTurn};

use crate::grid::cell;
use crate::labels::{Cell, Label, without};
use crate::turns::Turn;
use crew_instance::Instance;
use node_limits::Limits;
use visit_rewards::Rewards;

/// The most that a team can earn after task `j` at minute `t`.
pub(crate) fn after(
    instance: &Instance,
    grid: &[Cell],
    end: u32,
    turn: Turn,
    j: u32,
    t: u32,
) -> Label
    requires place { turn.place < length instance.now.places }
    requires some_minutes { 1 ≤ turn.minutes }
    requires minutes { turn.minutes ≤ 2880 }
    requires minute { t ≤ 2880 }
    requires end { end ≤ LAST_MINUTE + 1 }
    requires grid { IsGrid (length instance.now.places) grid.now }
    ensures { (n : NodeLimits) (k : ℕ) (w : ℕ → ℕ → ℤ) → n.instance ≡ instance.now
        → IsTurn n k j turn → IsEnd n k end
        → AreCells n k w (t + 1) end grid.now → IsAfter n k w j t result }
{
    let mut best = Label {
        value: 0,
        task: 0,
        start: 0,
    };
    let places = instance.places() as u32;
    for q in 0..places {
        let ready = t + turn.minutes + instance.travel(turn.place, q);
        if ready <= end {
            let label = without(cell(grid, places, q, ready), j);
            if label.value > best.value {
                best = label;
            }
        }
    }
    best
}

/// The most that a team can earn, by the cells of its first minute.
pub(crate) fn first(grid: &[Cell], places: u32, start: u32) -> Label
    requires grid { IsGrid places grid.now }
    requires minute { start < 2882 }
    ensures { (n : NodeLimits) (k : ℕ) (w : ℕ → ℕ → ℤ) (end : ℕ) → IsInstance n.instance
        → length n.instance.places ≡ places
        → IsStart n k start → start ≤ end → AreCells n k w start end grid.now
        → IsFirst n k w result }
{
    let mut best = Label {
        value: 0,
        task: 0,
        start: 0,
    };
    for q in 0..places {
        let label = cell(grid, places, q, start).first;
        if label.value > best.value {
            best = label;
        }
    }
    best
}

/// What a visit to task `j` at minute `t` earns, with what can be earned after it.
pub(crate) fn label_at<R: Rewards>(
    limits: &Limits<'_>,
    k: u32,
    prices: &R,
    grid: &[Cell],
    end: u32,
    turn: Turn,
    j: u32,
    t: u32,
) -> Label
    requires team { k < teams_in limits.now.limits }
    requires prices { R.AreOf limits.now.limits prices.now }
    requires visit { IsPermittedVisit limits.now.limits k j t }
    requires turn { IsTurn limits.now.limits k j turn }
    requires end { IsEnd limits.now.limits k end }
    requires day { end ≤ LAST_MINUTE + 1 }
    requires grid { IsGrid (length limits.now.limits.instance.places) grid.now }
    requires cells { AreCells limits.now.limits k (R.earned limits.now.limits prices.now k) (t + 1) end grid.now }
    ensures task { result.task ≡ j }
    ensures start { result.start ≡ t }
    ensures best { IsBest limits.now.limits k (R.earned limits.now.limits prices.now k) j t result.value }
{
    let next = after(limits.instance(), grid, end, turn, j, t);
    Label {
        value: prices.reward(limits, k, j, t) + next.value,
        task: j,
        start: t,
    }
}
