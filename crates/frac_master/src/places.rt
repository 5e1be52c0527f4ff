// The places of the opening rows of a node.

ghost use Rattle.std.specs.Prelude.{◌≡◌, ◌≤◌, ◌++◌, ◌<◌, ◌+◌, ◌*◌, [], ◌∷◌, ℕ, IfOk, filter, flat_map, map, not, length};
ghost use Rattle.std.specs.List.{range_with_len};
ghost use Rattle.crew_terms.specs.Limits.{has_required, is_required as required_pair, tasks_in, teams_in};
ghost use Rattle.crew_terms.specs.Minutes.{required_teams};
ghost use Rattle.crew_terms.specs.declared.TheConstants.{MOST_TASKS, MOST_TEAMS};
ghost use Rattle.search_terms.specs.Opening.{places, required_pairs, teams_for};
ghost use Rattle.frac_master.specs.Numbers.{AreTeamsOf};
ghost use Rattle.frac_master.specs.Places.{both_of_pair, both_of_task};

use node_limits::{Limits, Pair};
use search_terms::Place;
use std::alloc::{AllocError, Global};

/// Puts the unused shares of the teams behind these places.
fn push_teams(places: &mut Vec<Place>, limits: &Limits<'_>) -> Result<(), AllocError>
    ensures places { IfOk result (λ _. places.new.items
        ≡ places.old.items ++ map Place.Unused (range_with_len 0 (teams_in limits.now.limits))) }
    ensures few { length places.new.items ≤ length places.old.items + MOST_TEAMS }
{
    for k in 0..limits.instance().teams() as u32 {
        places.push(Place::Unused(k))?;
    }
    Ok(())
}

/// Puts the unassigned shares of the tasks without a required pair behind these places.
fn push_open_tasks(places: &mut Vec<Place>, limits: &Limits<'_>) -> Result<(), AllocError>
    ensures places { IfOk result (λ _. places.new.items ≡ places.old.items
        ++ map Place.Unassigned (filter (λ j. not (has_required limits.now.limits j))
        (range_with_len 0 (tasks_in limits.now.limits)))) }
    ensures few { length places.new.items ≤ length places.old.items + MOST_TASKS }
{
    for j in 0..limits.instance().tasks() as u32 {
        if limits.required(j) == 0 {
            places.push(Place::Unassigned(j))?;
        }
    }
    Ok(())
}

/// Puts the shortages and the excesses of the tasks behind these places.
fn push_tasks(places: &mut Vec<Place>, limits: &Limits<'_>) -> Result<(), AllocError>
    ensures places { IfOk result (λ _. places.new.items
        ≡ places.old.items ++ flat_map both_of_task
        (range_with_len 0 (tasks_in limits.now.limits))) }
    ensures few { length places.new.items ≤ length places.old.items + 2 * MOST_TASKS }
{
    for j in 0..limits.instance().tasks() as u32 {
        places.push(Place::Shortage(j))?;
        places.push(Place::Excess(j))?;
    }
    Ok(())
}

/// Whether the node requires the pair.
fn is_required(pair: Pair) -> bool
    ensures { result ≡ required_pair pair }
{
    match pair {
        Pair::Required => true,
        Pair::Free | Pair::Forbidden => false,
    }
}

/// Puts the missed and the repeated parts of the task's required pairs behind these places.
fn push_pairs_of(places: &mut Vec<Place>, limits: &Limits<'_>, j: u32) -> Result<(), AllocError>
    requires { j < tasks_in limits.now.limits }
    ensures places { IfOk result (λ _. places.new.items ≡ places.old.items
        ++ flat_map both_of_pair (map (λ k. (k, j)) (required_teams limits.now.limits j))) }
    ensures few { length places.new.items ≤ length places.old.items + 2 * MOST_TEAMS }
{
    for k in 0..limits.instance().teams() as u32 {
        if is_required(limits.pair(k, j)) {
            places.push(Place::Missed(k, j))?;
            places.push(Place::Repeated(k, j))?;
        }
    }
    Ok(())
}

/// Puts the missed and the repeated parts of the required pairs behind these places.
fn push_pairs(places: &mut Vec<Place>, limits: &Limits<'_>) -> Result<(), AllocError>
    ensures places { IfOk result (λ _. places.new.items
        ≡ places.old.items ++ flat_map both_of_pair (required_pairs limits.now.limits)) }
    ensures few { length places.new.items ≤ length places.old.items + 2 * MOST_TEAMS * MOST_TASKS }
{
    for j in 0..limits.instance().tasks() as u32 {
        push_pairs_of(places, limits, j)?;
    }
    Ok(())
}

/// The places of the opening rows.
pub fn places_of(alloc: Global, limits: &Limits<'_>) -> Result<Vec<Place>, AllocError>
    ensures places { IfOk result (λ v. v.items ≡ places limits.now.limits) }
    ensures few { IfOk result (λ v. length v.items ≤ 100000) }
{
    let mut all = vec![in alloc; Place::Right, Place::Value]?;
    push_teams(&mut all, limits)?;
    push_open_tasks(&mut all, limits)?;
    push_tasks(&mut all, limits)?;
    push_pairs(&mut all, limits)?;
    Ok(all)
}

/// How many teams each task needs.
pub fn teams_of(alloc: Global, limits: &Limits<'_>) -> Result<Vec<u32>, AllocError>
    ensures teams { IfOk result (λ v. AreTeamsOf v.items limits.now.limits) }
    ensures count { IfOk result (λ v. length v.items ≡ tasks_in limits.now.limits) }
{
    let instance = limits.instance();
    let mut teams = Vec::new(alloc);
    for j in 0..instance.tasks() as u32 {
        teams.push(instance.task(j).teams)?;
    }
    Ok(teams)
}
