// The local rules of a team by minute prices.
ghost use Rattle.std.specs.Prelude.{◌≡◌, ◌≤◌, ◌<◌, ◌+◌, ◌+ℤ◌, ◌≤ℤ◌, ◌↔◌, ℕ, [], pos, length, slice_index_or, slice_get, Some, IfOk, IsTrue, All};
ghost use Rattle.crew_instance.specs.Draft.{rows_of};
ghost use Rattle.crew_terms.specs.Instance.{task_of};
ghost use Rattle.crew_terms.specs.Limits.{tasks_in, teams_in};
ghost use Rattle.crew_terms.specs.Leaf.{HoldsPotential, HoldsWorth};
ghost use Rattle.crew_terms.specs.declared.TheConstants.{LAST_MINUTE};
ghost use Rattle.potentials.specs.Rules.{AreVisits, IsLocalVerdict, ready_at};
ghost use Rattle.squeeze_terms.specs.MinutePrices.{AreMinutePrices, minute_price, price_count, price_place};
ghost use Rattle.minute_rules.specs.Rules.{AreAheadBelow, AreTeamRows, CoversNext, CoversRewards, HasRuleRoom, phi_by};
ghost use Rattle.minute_rules.specs.declared.ahead.Ahead.{Ahead as AheadOf};

use crate::ahead::Ahead;
use crew_instance::{Instance, Task};
use crew_laws::minutes_are_permitted;
use crew_terms::LAST_MINUTE;
use node_limits::Limits;
use potentials::LocalVerdict;
use std::alloc::{AllocError, Global};

/// Room for what the rules of one team are tested by. What it keeps from one test to the next says nothing.
#[derive(Drop)]
pub struct RuleRoom {
    // For each task.
    ahead: Vec<Ahead>,
}

fn room_for(alloc: Global, tasks: usize) -> Result<Vec<Ahead>, AllocError>
    ensures { IfOk result (λ ahead. length ahead.items ≡ tasks) }
{
    let mut ahead = Vec::with_capacity(alloc, tasks)?;
    for _ in 0..tasks {
        ahead.push(Ahead::new(alloc)?)?;
    }
    Ok(ahead)
}

impl RuleRoom {
    /// Room for the tasks of the instance.
    pub fn reserve(alloc: Global, instance: &Instance) -> Result<RuleRoom, AllocError>
        ensures { IfOk result (HasRuleRoom instance.now) }
    {
        let ahead = room_for(alloc, instance.tasks())?;
        Ok(RuleRoom { ahead })
    }
}

/// The potentials of a task at the minutes at which a team may begin it, of which `first` is the first.
#[derive(Clone, Copy)]
struct Visits<'t> {
    first: u32,
    potentials: &'t [i64],
}

/// The visits of team `k` to task `j`; none where there is no minute at which it may begin the task.
fn visits_to<'t>(limits: &Limits<'_>, k: u32, rows: &'t [Vec<i64>], j: u32) -> Visits<'t>
    requires team { k < teams_in limits.now.limits }
    requires task { j < tasks_in limits.now.limits }
    requires rows { AreTeamRows limits.now.limits k (rows_of rows.now) }
    ensures visits { AreVisits limits.now.limits k j
        (phi_by limits.now.limits k (rows_of rows.now)) result.first result.potentials.now }
    ensures day { result.first + length result.potentials.now ≤ LAST_MINUTE + 1 }
    ensures early { (task_of limits.now.limits.instance j).earliest ≤ result.first }
{
    minutes_are_permitted();
    // What holds of its tasks: no window ends after the days.
    let task = limits.instance().task(j);
    let first = match limits.minutes(k, j) {
        Some(minutes) => minutes.0,
        None => task.earliest,
    };
    Visits {
        first,
        potentials: &rows[j as usize],
    }
}

/// What a visit to a task of these prices earns that begins at this minute.
fn reward(task: &Task, prices: &[i64], minute: u32) -> i64
    requires some { 1 ≤ task.now.teams }
    requires early { task.now.earliest ≤ minute }
    requires late { minute ≤ task.now.latest }
    requires count { length prices.now ≡ price_count task.now }
    ensures { result ≡ slice_index_or prices.now (price_place task.now minute) (pos 0) }
{
    if task.teams >= 2 {
        prices[(minute - task.earliest) as usize]
    } else {
        prices[0]
    }
}

/// Whether each potential is at least the reward of its visit.
fn covers_rewards(task: &Task, prices: &[i64], here: Visits<'_>) -> bool
    requires some { 1 ≤ task.now.teams }
    requires early { task.now.earliest ≤ here.first }
    requires late { here.first + length here.potentials.now ≤ task.now.latest + 1 }
    requires day { here.first + length here.potentials.now ≤ LAST_MINUTE + 1 }
    requires count { length prices.now ≡ price_count task.now }
    ensures { IsTrue result ↔
        CoversRewards task.now prices.now here.entry.first here.entry.potentials.now }
{
    for a in 0..here.potentials.len() {
        if here.potentials[a] < reward(task, prices, here.first + a as u32) {
            return false;
        }
    }
    true
}

/// Whether a potential is at least the reward and what can be earned after it. No sum wraps.
fn is_enough(potential: i64, reward: i64, after: i64) -> bool
    ensures { IsTrue result ↔ ((reward +ℤ after) ≤ℤ potential) }
{
    i128::from(reward) + i128::from(after) <= i128::from(potential)
}

/// The minute at which a team that begins task `j` at this minute is ready for task `h`.
fn ready_for(instance: &Instance, minute: u32, j: u32, h: u32) -> u32
    requires minute { minute ≤ LAST_MINUTE }
    requires from { j < length instance.now.tasks }
    requires to { h < length instance.now.tasks }
    ensures { result ≡ ready_at instance.now j minute h }
{
    let from = instance.task(j);
    let to = instance.task(h);
    minute + from.minutes + instance.travel(from.place, to.place)
}

/// Whether each potential of task `j` is at least the reward of its visit and what can be earned from task `h` on.
fn covers_next(
    instance: &Instance,
    j: u32,
    prices: &[i64],
    here: Visits<'_>,
    h: u32,
    ahead: &Ahead,
) -> bool
    requires from { j < length instance.now.tasks }
    requires to { h < length instance.now.tasks }
    requires early { (task_of instance.now j).earliest ≤ here.first }
    requires late { here.first + length here.potentials.now ≤ (task_of instance.now j).latest + 1 }
    requires day { here.first + length here.potentials.now ≤ LAST_MINUTE + 1 }
    requires count { length prices.now ≡ price_count (task_of instance.now j) }
    ensures { IsTrue result ↔ CoversNext instance.now j prices.now
        here.entry.first here.entry.potentials.now h ahead.now.most.items }
{
    if h == j {
        return true;
    }
    let task = instance.task(j);
    for a in 0..here.potentials.len() {
        let minute = here.first + a as u32;
        let after = ahead.from(ready_for(instance, minute, j, h));
        if !is_enough(here.potentials[a], reward(task, prices, minute), after) {
            return false;
        }
    }
    true
}

/// The same for each task `h`.
fn covers_all(
    instance: &Instance,
    j: u32,
    prices: &[i64],
    here: Visits<'_>,
    ahead: &[Ahead],
) -> bool
    requires from { j < length instance.now.tasks }
    requires all { length ahead.now ≡ length instance.now.tasks }
    requires early { (task_of instance.now j).earliest ≤ here.first }
    requires late { here.first + length here.potentials.now ≤ (task_of instance.now j).latest + 1 }
    requires day { here.first + length here.potentials.now ≤ LAST_MINUTE + 1 }
    requires count { length prices.now ≡ price_count (task_of instance.now j) }
    ensures { IsTrue result ↔ ((h : ℕ) (row : AheadOf) → slice_get ahead.now h ≡ Some row →
        CoversNext instance.now j prices.now
        here.entry.first here.entry.potentials.now h row.most.items) }
{
    for h in 0..instance.tasks() as u32 {
        if !covers_next(instance, j, prices, here, h, &ahead[h as usize]) {
            return false;
        }
    }
    true
}

/// Whether the potentials of task `j` are at least its reward at each minute, and its reward and the potential of each visit
/// that can follow.
fn holds_potential(
    limits: &Limits<'_>,
    k: u32,
    prices: &[Vec<i64>],
    rows: &[Vec<i64>],
    ahead: &[Ahead],
    j: u32,
) -> bool
    requires team { k < teams_in limits.now.limits }
    requires task { j < tasks_in limits.now.limits }
    requires prices { AreMinutePrices limits.now.limits.instance (rows_of prices.now) }
    requires rows { AreTeamRows limits.now.limits k (rows_of rows.now) }
    requires count { length ahead.now ≡ tasks_in limits.now.limits }
    requires ahead { AreAheadBelow limits.now.limits k
        (phi_by limits.now.limits k (rows_of rows.now)) ahead.now (tasks_in limits.now.limits) }
    ensures { IsTrue result ↔ HoldsPotential limits.now.limits k
        (minute_price limits.now.limits.instance (rows_of prices.now))
        (phi_by limits.now.limits k (rows_of rows.now)) j }
{
    let instance = limits.instance();
    let here = visits_to(limits, k, rows, j);
    let own = &prices[j as usize];
    if !covers_rewards(instance.task(j), own, here) {
        return false;
    }
    covers_all(instance, j, own, here, ahead)
}

/// Finds what can still be earned from each task at each minute. It takes no memory.
fn find_ahead(limits: &Limits<'_>, k: u32, rows: &[Vec<i64>], ahead: &mut Vec<Ahead>)
    requires team { k < teams_in limits.now.limits }
    requires rows { AreTeamRows limits.now.limits k (rows_of rows.now) }
    requires count { length ahead.old.items ≡ tasks_in limits.now.limits }
    ensures count { length ahead.new.items ≡ tasks_in limits.now.limits }
    ensures ahead { AreAheadBelow limits.now.limits k
        (phi_by limits.now.limits k (rows_of rows.now)) ahead.new.items (tasks_in limits.now.limits) }
{
    for j in 0..limits.instance().tasks() as u32 {
        let visits = visits_to(limits, k, rows, j);
        ahead[j as usize].find(visits.first, visits.potentials);
    }
}

fn are_at_most(potentials: &[i64], most: i64) -> bool
    ensures { IsTrue result ↔ All (λ potential. potential ≤ℤ most) potentials.now }
{
    potentials.iter().all(|potential| *potential <= most)
}

/// Whether the worth is at least 0 and each potential of a visit.
fn holds_worth(limits: &Limits<'_>, k: u32, rows: &[Vec<i64>], worth: i64) -> bool
    requires team { k < teams_in limits.now.limits }
    requires rows { AreTeamRows limits.now.limits k (rows_of rows.now) }
    ensures { IsTrue result ↔ HoldsWorth limits.now.limits k
        (phi_by limits.now.limits k (rows_of rows.now)) worth }
{
    if worth < 0 {
        return false;
    }
    for j in 0..limits.instance().tasks() as u32 {
        if !are_at_most(visits_to(limits, k, rows, j).potentials, worth) {
            return false;
        }
    }
    true
}

/// Whether the local rules of team `k` hold in the node by these prices, where `rows` has for each task a potential for each
/// minute at which the team may begin it; or else the first that fails: the first task, by number, with a potential that is
/// too low, and then the worth. It takes no memory.
pub fn minute_rules(
    limits: &Limits<'_>,
    k: u32,
    prices: &[Vec<i64>],
    rows: &[Vec<i64>],
    room: &mut RuleRoom,
    worth: i64,
) -> LocalVerdict
    requires team { k < teams_in limits.now.limits }
    requires prices { AreMinutePrices limits.now.limits.instance (rows_of prices.now) }
    requires rows { AreTeamRows limits.now.limits k (rows_of rows.now) }
    requires room { HasRuleRoom limits.now.limits.instance room.old }
    ensures room { HasRuleRoom limits.now.limits.instance room.new }
    ensures verdict { IsLocalVerdict limits.now.limits k
        (minute_price limits.now.limits.instance (rows_of prices.now))
        (phi_by limits.now.limits k (rows_of rows.now)) worth result }
{
    find_ahead(limits, k, rows, &mut room.ahead);
    for task in 0..limits.instance().tasks() as u32 {
        if !holds_potential(limits, k, prices, rows, &room.ahead, task) {
            return LocalVerdict::Low { task };
        }
    }
    if !holds_worth(limits, k, rows, worth) {
        return LocalVerdict::Worth;
    }
    LocalVerdict::Holds
}
