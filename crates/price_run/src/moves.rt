// One step of a price run: the prices that come after it.
ghost use Rattle.std.specs.Prelude.{◌≡◌, ◌≤◌, ◌<◌, ◌+◌, ◌*◌, ◌==◌, ◌+ℤ◌, ◌-ℤ◌, ◌*ℤ◌, ◌^◌, ℕ, pos, length, map, count_by, if◌then◌else◌, IfOk, OnOk};
ghost use Rattle.std.specs.List.{range_with_len};
ghost use Rattle.std.specs.Option.{option_map_or};
ghost use Rattle.crew_terms.specs.Instance.{task_of};
ghost use Rattle.crew_terms.specs.declared.TheConstants.{D};
ghost use Rattle.potentials.specs.Sums.{IsBoundedBy};
ghost use Rattle.squeeze_terms.specs.MinutePrices.{AreMinutePrices, price_count as count_of_prices, price_place as place_of_price};
ghost use Rattle.squeeze_terms.specs.Run.{cut_off, demand_minute, next_price, next_prices as prices_next, stride as stride_of, visits_at, visits_priced};
ghost use Rattle.squeeze_terms.specs.declared.TheConstants.{MOST_STEPS};

use crate::traces::StepRoutes;
use crew_instance::Instance;
use crew_terms::{D, MOST_PRICE, Task, Visit};
use minute_prices::{MinutePrices, price_count, price_place};
use std::alloc::{AllocError, Global};

/// How far step `s`, counted from 0, moves a price for each visit that it lacks, in 1/D of a task.
fn stride(s: u32) -> u32
    requires { s ≤ MOST_STEPS }
    ensures stride { result ≡ stride_of s }
    ensures most { result ≤ D }
{
    D / (4 * (s + 1))
}

/// The number, cut off at the limits of prices.
#[tactic(auto, using(std::proofs::lemmas::Int::clamps, std::proofs::lemmas::Int::ints))]
fn cut_at_limits(sum: i128) -> i64
    ensures { result ≡ cut_off sum }
{
    if sum > MOST_PRICE as i128 {
        return MOST_PRICE as i64;
    }
    if sum < -(MOST_PRICE as i128) {
        return -(MOST_PRICE as i64);
    }
    sum as i64
}

/// How many visits are lacking, where so many are wanted and there are so many.
#[tactic(auto, using(std::proofs::lemmas::Int::ints))]
fn lacking(wanted: u32, visits: usize) -> i128
    ensures count { result ≡ pos wanted -ℤ pos visits }
    ensures range { IsBoundedBy (2 ^ 64) result }
{
    i128::from(wanted) - visits as i128
}

/// How far a price moves by this stride.
fn change(stride: u32, wanted: u32, visits: usize) -> i128
    requires { stride ≤ D }
    ensures change { result ≡ pos stride *ℤ (pos wanted -ℤ pos visits) }
    ensures range { IsBoundedBy (D * 2 ^ 64) result }
{
    i128::from(stride) * lacking(wanted, visits)
}

/// The price that comes after one, which is to have so many visits and has so many: at most 1,000,000 tasks, either way.
fn moved(price: i64, stride: u32, wanted: u32, visits: usize) -> i64
    requires { stride ≤ D }
    ensures { result ≡ cut_off (price +ℤ (pos stride *ℤ (pos wanted -ℤ pos visits))) }
{
    cut_at_limits(i128::from(price) + change(stride, wanted, visits))
}

/// How many visits the price at place `x` is to have: as many as the task needs teams, where its demand stands at a minute
/// of this price.
fn wanted_at(task: &Task, demand: Option<u32>, x: u32) -> u32
    ensures { result ≡ option_map_or
        (λ t. if place_of_price task.now t == x then task.now.teams else 0) demand 0 }
{
    match demand {
        Some(t) => {
            if price_place(task, t) == x {
                task.teams
            } else {
                0
            }
        }
        None => 0,
    }
}

/// Adds, for each of the visits to task `j`, the place of the price that it earns.
fn gather(
    instance: &Instance,
    j: u32,
    visits: &[Visit],
    places: &mut Vec<u32>,
) -> Result<(), AllocError>
    requires { j < length instance.now.tasks }
    ensures { OnOk result ((x : ℕ) → count_by (λ p. p == x) places.new.items
        ≡ count_by (λ p. p == x) places.old.items + visits_priced instance.now j x visits.now) }
{
    let task = instance.task(j);
    for visit in visits {
        if visit.task == j {
            places.push(price_place(task, visit.start))?;
        }
    }
    Ok(())
}

/// For each visit of the routes to task `j` the place of the price that it earns.
fn places_of(
    alloc: Global,
    instance: &Instance,
    routes: &StepRoutes,
    j: u32,
) -> Result<Vec<u32>, AllocError>
    requires { j < length instance.now.tasks }
    ensures { IfOk result (λ places. (x : ℕ) → count_by (λ p. p == x) places.items
        ≡ visits_at instance.now routes.now j x) }
{
    let mut places = Vec::new(alloc);
    for k in 0..routes.len() {
        gather(instance, j, routes.route(k), &mut places)?;
    }
    Ok(places)
}

/// How often the number stands in the list.
fn count_of(places: &[u32], x: u32) -> usize
    ensures { result ≡ count_by (λ p. p == x) places.now }
{
    places.iter().filter(|place| **place == x).count()
}

/// The prices of task `j` after step `s` with these routes; its demand stands at this minute.
fn next_row(
    alloc: Global,
    instance: &Instance,
    s: u32,
    prices: &MinutePrices,
    routes: &StepRoutes,
    j: u32,
    demand: Option<u32>,
) -> Result<Vec<i64>, AllocError>
    requires task { j < length instance.now.tasks }
    requires step { s ≤ MOST_STEPS }
    requires prices { AreMinutePrices instance.now prices.now }
    requires demand { demand ≡ demand_minute instance.now prices.now j }
    ensures { IfOk result (λ row. row.items
        ≡ map (next_price instance.now s prices.now routes.now j)
        (range_with_len 0 (count_of_prices (task_of instance.now j)))) }
{
    let task = instance.task(j);
    let places = places_of(alloc, instance, routes, j)?;
    let old = prices.row(j);
    let stride = stride(s);
    let mut row = Vec::with_capacity(alloc, old.len())?;
    for x in 0..price_count(task) {
        let visits = count_of(&places, x);
        let wanted = wanted_at(task, demand, x);
        row.push(moved(old[x as usize], stride, wanted, visits))?;
    }
    Ok(row)
}

/// All prices after step `s` with these routes; the demands are those of the tasks.
pub(crate) fn next_prices(
    alloc: Global,
    instance: &Instance,
    s: u32,
    prices: &MinutePrices,
    routes: &StepRoutes,
    demands: &[Option<u32>],
) -> Result<MinutePrices, AllocError>
    requires step { s ≤ MOST_STEPS }
    requires prices { AreMinutePrices instance.now prices.now }
    requires demands { demands.now ≡ map (demand_minute instance.now prices.now)
        (range_with_len 0 (length instance.now.tasks)) }
    ensures { IfOk result (λ p. p ≡ prices_next instance.now s prices.now routes.now) }
{
    let mut next = MinutePrices::new(alloc);
    for j in 0..instance.tasks() as u32 {
        let demand = demands[j as usize];
        next.push(next_row(alloc, instance, s, prices, routes, j, demand)?)?;
    }
    Ok(next)
}
