// How long a team is on its way to a job.
ghost use Rattle.std.specs.Prelude.{◌≡◌, ◌≤◌, ◌<◌, IfSome, length};
ghost use Rattle.crew_terms.specs.Instance.{task_of};
ghost use Rattle.crew_terms.specs.declared.TheConstants.{LAST_MINUTE};
ghost use Rattle.plan_chart.specs.Ways.{is_one_of, last_turn, later_turn, minutes_to, place_after, turn_at};

use crew_instance::{Instance, Plan, Turn};

/// Whether team `k` is one of the teams.
fn is_among(teams: &[u32], k: u32) -> bool
    ensures { result ≡ is_one_of teams.now k }
{
    teams.iter().any(|team| *team == k)
}

/// The turn of team `k` at task `h`, if it begins the task before minute `t`.
fn turn_of(plan: &Plan, k: u32, t: u32, h: u32) -> Option<Turn>
    requires { h < length plan.now }
    ensures turn { result ≡ turn_at plan.now k t h }
    ensures task { IfSome result (λ turn. turn.task ≡ h) }
{
    let start = plan.start(h)?;
    if start < t && is_among(plan.teams(h), k) {
        Some(Turn { start, task: h })
    } else {
        None
    }
}

/// The later of two turns, the first where they begin together.
fn later(a: Option<Turn>, b: Option<Turn>) -> Option<Turn>
    ensures { result ≡ later_turn a b }
{
    match (a, b) {
        (Some(a), Some(b)) => Some(if a.start < b.start { b } else { a }),
        (Some(a), None) => Some(a),
        (None, b) => b,
    }
}

/// The last turn of team `k` before minute `t`.
fn turn_before(plan: &Plan, k: u32, t: u32) -> Option<Turn>
    ensures turn { result ≡ last_turn plan.now k t (length plan.now) }
    ensures task { IfSome result (λ turn. turn.task < length plan.now) }
{
    let mut turn = None;
    for h in 0..plan.len() as u32 {
        turn = later(turn, turn_of(plan, k, t, h));
    }
    turn
}

/// Where team `k` is behind a turn, or at first.
fn place_behind(instance: &Instance, k: u32, turn: Option<Turn>) -> u32
    requires team { k < length instance.now.teams }
    requires known { IfSome turn (λ v. v.task < length instance.now.tasks) }
    ensures place { result ≡ place_after instance.now k turn }
    ensures known { result < length instance.now.places }
{
    match turn {
        Some(turn) => instance.task(turn.task).place,
        None => instance.team(k).home,
    }
}

/// The minutes that team `k` is on its way to task `j`, which it begins at minute `t`: from the task that it began last
/// before, or from its home.
pub fn minutes_there(instance: &Instance, plan: &Plan, k: u32, j: u32, t: u32) -> u32
    requires plan { length plan.now ≡ length instance.now.tasks }
    requires team { k < length instance.now.teams }
    requires task { j < length instance.now.tasks }
    ensures minutes { result ≡ minutes_to instance.now plan.now k j t }
    ensures limit { result ≤ LAST_MINUTE }
{
    let turn = turn_before(plan, k, t);
    let from = place_behind(instance, k, turn);
    instance.travel(from, instance.task(j).place)
}
