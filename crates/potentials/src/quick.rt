// The local rules of a team by place: where a team can be at a minute depends on the place alone, not on the task there.
ghost use Rattle.std.specs.Prelude.{◌≡◌, ◌<◌, ◌≤ℤ◌, ℕ, ℤ, length, slice_get, Some, All, IsTrue};
ghost use Rattle.crew_terms.specs.Limits.{tasks_in, teams_in};
ghost use Rattle.crew_terms.specs.Leaf.{HoldsLocally, earned};
ghost use Rattle.potentials.specs.Ahead.{AllowsFall};
ghost use Rattle.potentials.specs.Prices.{ArePricesOf};
ghost use Rattle.potentials.specs.Quick.{AllRise, AreBoundedAt, AreBoundedBelow, HoldsByPlace, KeepFalls, away_for};
ghost use Rattle.potentials.specs.Rules.{KeepRecords};
ghost use Rattle.potentials.specs.declared.ahead.Ahead.{Ahead};

use crate::ahead::{Ahead, Best, allows, are_bounded, are_rising};
use crate::prices::Prices;
use crate::records::{Record, Records};
use crew_instance::Instance;
use node_limits::Limits;

/// Gathers the records of each task in the list of its place.
fn gather(instance: &Instance, records: &[Records], ahead: &mut Vec<Ahead>, aside: &mut Vec<Best>)
    requires { length records.now ≡ length instance.now.tasks }
{
    for list in ahead.iter_mut() {
        list.clear();
    }
    gather_all(instance, records, ahead, aside);
}

fn gather_all(
    instance: &Instance,
    records: &[Records],
    ahead: &mut Vec<Ahead>,
    aside: &mut Vec<Best>,
)
    requires { length records.now ≡ length instance.now.tasks }
{
    for h in 0..instance.tasks() as u32 {
        if let Some(list) = ahead.get_mut(instance.task(h).place as usize) {
            list.gather(aside, h, records[h as usize].list());
        }
    }
}

fn all_rise(ahead: &[Ahead]) -> bool
    ensures { IsTrue result → AllRise ahead.now }
{
    for place in ahead {
        if !are_rising(&place.list) {
            return false;
        }
    }
    true
}

/// Whether the list of the task's place bounds its records.
fn are_bounded_at(instance: &Instance, ahead: &[Ahead], h: u32, row: &Records) -> bool
    requires { h < length instance.now.tasks }
    ensures { IsTrue result → AreBoundedAt instance.now ahead.now h row.now }
{
    let place = instance.task(h).place as usize;
    place < ahead.len() && are_bounded(&ahead[place].list, h, row.list())
}

fn all_are_bounded(instance: &Instance, ahead: &[Ahead], records: &[Records]) -> bool
    requires { length records.now ≡ length instance.now.tasks }
    ensures { IsTrue result → AreBoundedBelow instance.now ahead.now records.now (length instance.now.tasks) }
{
    for h in 0..instance.tasks() as u32 {
        if !are_bounded_at(instance, ahead, h, &records[h as usize]) {
            return false;
        }
    }
    true
}

/// Whether each fall of the task is at least the reward and what other tasks have at each place.
fn allows_places(
    instance: &Instance,
    j: u32,
    reward: i64,
    falls: &[Record],
    ahead: &[Ahead],
) -> bool
    requires task { j < length instance.now.tasks }
    requires rise { AllRise ahead.now }
    ensures { IsTrue result → (p : ℕ) (place : Ahead) → slice_get ahead.now p ≡ Some place
        → All (AllowsFall place.list.items j reward (away_for instance.now j p)) falls.now }
{
    if ahead.len() != instance.places() {
        return false;
    }
    let task = instance.task(j);
    for p in 0..instance.places() as u32 {
        let away = task.minutes + instance.travel(task.place, p);
        if !allows(&ahead[p as usize].list, j, reward, falls, away) {
            return false;
        }
    }
    true
}

fn are_paid(falls: &[Record], reward: i64) -> bool
    ensures { IsTrue result → All (λ f. reward ≤ℤ f.potential) falls.now }
{
    falls.iter().all(|fall| reward <= fall.potential)
}

fn are_worth(records: &[Record], worth: i64) -> bool
    ensures { IsTrue result → All (λ r. r.potential ≤ℤ worth) records.now }
{
    records.iter().all(|visit| visit.potential <= worth)
}

/// Whether the rules of task `j` hold by the lists of the places.
fn holds_task(
    instance: &Instance,
    j: u32,
    reward: i64,
    worth: i64,
    row: &Records,
    ahead: &[Ahead],
) -> bool
    requires task { j < length instance.now.tasks }
    requires rise { AllRise ahead.now }
    ensures { IsTrue result → HoldsByPlace instance.now j reward worth row.now ahead.now }
{
    let falls = row.falls();
    if !are_paid(falls, reward) || !are_worth(row.list(), worth) {
        return false;
    }
    allows_places(instance, j, reward, falls, ahead)
}

/// Whether the local rules of team `k` are found to hold, place by place, from the records and falls of each task. It takes no memory.
pub(crate) fn holds_quickly(
    limits: &Limits<'_>,
    k: u32,
    prices: &Prices,
    records: &[Records],
    ahead: &mut Vec<Ahead>,
    aside: &mut Vec<Best>,
    worth: i64,
) -> bool
    requires team { k < teams_in limits.now.limits }
    requires prices { ArePricesOf limits.now.limits prices.now }
    requires count { length records.now ≡ tasks_in limits.now.limits }
    ensures { (phi : ℕ → ℕ → ℤ) → KeepRecords limits.now.limits k phi records.now
        → KeepFalls limits.now.limits k phi records.now → IsTrue result
        → HoldsLocally limits.now.limits k (earned prices.now k) phi worth }
{
    let instance = limits.instance();
    if worth < 0 {
        return false;
    }
    gather(instance, records, ahead, aside);
    if !all_rise(ahead) || !all_are_bounded(instance, ahead, records) {
        return false;
    }
    for j in 0..instance.tasks() as u32 {
        let reward = prices.reward(k, j);
        if !holds_task(instance, j, reward, worth, &records[j as usize], ahead) {
            return false;
        }
    }
    true
}
