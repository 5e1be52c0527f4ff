// What a test asks of an instance: None where there is no such place, team or task.
use crew_instance::Instance;
use crew_terms::{Name, Task, Team};

/// The name of place `p`.
pub fn place_at(instance: &Instance, p: u32) -> Option<Name> {
    if p as usize >= instance.places() {
        return None;
    }
    Some(*instance.place(p))
}

/// Team `k`.
pub fn team_at(instance: &Instance, k: u32) -> Option<Team> {
    if k as usize >= instance.teams() {
        return None;
    }
    Some(*instance.team(k))
}

/// Task `j`.
pub fn task_at(instance: &Instance, j: u32) -> Option<Task> {
    if j as usize >= instance.tasks() {
        return None;
    }
    Some(*instance.task(j))
}

/// The minutes from place `a` to place `b`.
pub fn minutes_between(instance: &Instance, a: u32, b: u32) -> Option<u32> {
    if a as usize >= instance.places() || b as usize >= instance.places() {
        return None;
    }
    Some(instance.travel(a, b))
}

/// Whether team `k` has each skill of task `j`.
pub fn is_qualified(instance: &Instance, k: u32, j: u32) -> Option<bool> {
    if k as usize >= instance.teams() || j as usize >= instance.tasks() {
        return None;
    }
    Some(instance.qualified(k, j))
}

/// The frozen job of task `j`, which it may have or not.
pub fn frozen_at(instance: &Instance, j: u32) -> Option<Option<(u32, &[u32])>> {
    if j as usize >= instance.tasks() {
        return None;
    }
    Some(instance.frozen(j))
}
