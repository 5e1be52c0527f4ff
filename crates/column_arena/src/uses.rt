// Which columns of a team visit a task: a table with a list for each team and task.
ghost use Rattle.std.specs.Prelude.{◌≡◌, ◌<◌, ◌≤◌, false, All, OnErr, OnOk, length, max, slice_set};
ghost use Rattle.crew_terms.specs.declared.TheConstants.{MOST_TASKS, MOST_TEAMS};
ghost use Rattle.column_arena.specs.Uses.{HaveSameNumbers, IsNoted, held_at, is_last, none_held, place as place_of, with_last};

use crate::LISTS;
use crew_terms::{MOST_TASKS, Visit};
use std::alloc::{AllocError, Global};
use std::marker::Model;

/// Numbers of columns, rising.
///
/// In contracts: the numbers, and the room for further ones.
#[derive(Drop)]
pub struct Uses {
    ids: Vec<usize>,
    spare: usize,
}

impl Model for Uses {
    ghost use Rattle.std.specs.Prelude.{◌+◌, ◌≤◌, vec_len, vec_capacity};
    ghost use Rattle.column_arena.specs.Uses.{Held};

    ghost Value = { Held };

    ghost view = { λ u. record { ids = u.ids.items; spare = u.spare } };

    ghost invariant = { λ u. vec_len u.ids + u.spare ≤ vec_capacity u.ids };
}

// Whether the number stands last.
fn ends_with(ids: &[usize], id: usize) -> bool
    ensures { result ≡ is_last ids.now id }
{
    !ids.is_empty() && ids[ids.len() - 1] == id
}

impl Uses {
    fn new(alloc: Global) -> Uses
        ensures { result ≡ none_held }
    {
        Uses {
            ids: Vec::new(alloc),
            spare: 0,
        }
    }

    fn ids(&self) -> &[usize]
        ensures { result.now ≡ self.now.ids }
    {
        &self.ids
    }

    // Room for one number.
    fn reserve(&mut self) -> Result<(), AllocError>
        ensures ok { OnOk result (self.new ≡ record self.old { spare = max self.old.spare 1 }) }
        ensures err { OnErr result (self.new ≡ self.old) }
    {
        if self.spare == 0 {
            self.ids.reserve(1)?;
            self.spare = 1;
        }
        Ok(())
    }

    // Puts the number last, unless it stands there.
    fn put(&mut self, id: usize)
        requires { is_last self.old.ids id ≡ false → 0 < self.old.spare }
        ensures { self.new ≡ with_last self.old id }
    {
        if ends_with(&self.ids, id) {
            return;
        }
        self.ids.push(id).unwrap();
        self.spare -= 1;
    }
}

// The place of a team and a task in the table.
fn place(team: u32, task: u32) -> usize
    requires team { team < MOST_TEAMS }
    requires task { task < MOST_TASKS }
    ensures place { result ≡ place_of team task }
    ensures within { result < LISTS }
{
    team as usize * MOST_TASKS + task as usize
}

/// The numbers at a team and a task.
pub fn using(table: &[Uses], team: u32, task: u32) -> &[usize]
    requires team { team < MOST_TEAMS }
    requires task { task < MOST_TASKS }
    ensures { result.now ≡ (held_at table.now (place_of team task)).ids }
{
    let p = place(team, task);
    if p >= table.len() {
        return &[];
    }
    table[p].ids()
}

// Makes the table whole, with lists that are empty.
fn fill(table: &mut Vec<Uses>) -> Result<(), AllocError>
    ensures same { HaveSameNumbers table.old.items table.new.items }
    ensures whole { OnOk result (LISTS ≤ length table.new.items) }
{
    let alloc = *table.allocator();
    let have = table.len();
    if have >= LISTS {
        return Ok(());
    }
    table.reserve(LISTS - have)?;
    for _ in have..LISTS {
        table.push(Uses::new(alloc))?;
    }
    Ok(())
}

fn reserve_at(table: &mut Vec<Uses>, p: usize) -> Result<(), AllocError>
    requires { p < length table.old.items }
    ensures ok { OnOk result (table.new.items
        ≡ slice_set table.old.items p (record
        (held_at table.old.items p) { spare = max (held_at table.old.items p).spare 1 })) }
    ensures err { OnErr result (table.new.items ≡ table.old.items) }
{
    table[p].reserve()
}

/// Room for one more number at each task that the team visits. The numbers stay, whatever the result.
pub fn reserve(table: &mut Vec<Uses>, team: u32, visits: &[Visit]) -> Result<(), AllocError>
    requires team { team < MOST_TEAMS }
    requires tasks { All (λ v. v.task < MOST_TASKS) visits.now }
    ensures same { HaveSameNumbers table.old.items table.new.items }
    ensures room { OnOk result (All (λ v. 0 < (held_at table.new.items
        (place_of team v.task)).spare) visits.now) }
{
    fill(table)?;
    for visit in visits {
        reserve_at(table, place(team, visit.task))?;
    }
    Ok(())
}

fn put_at(table: &mut Vec<Uses>, p: usize, id: usize)
    requires within { p < length table.old.items }
    requires room { is_last (held_at table.old.items p).ids id ≡ false
        → 0 < (held_at table.old.items p).spare }
    ensures { table.new.items ≡ slice_set table.old.items p
        (with_last (held_at table.old.items p) id) }
{
    table[p].put(id);
}

/// Puts the number last at each task that the team visits, for which there is room.
pub fn note(table: &mut Vec<Uses>, team: u32, visits: &[Visit], id: usize)
    requires team { team < MOST_TEAMS }
    requires tasks { All (λ v. v.task < MOST_TASKS) visits.now }
    requires room { All (λ v. 0 < (held_at table.old.items (place_of team v.task)).spare)
        visits.now }
    requires fresh { All (λ v. is_last (held_at table.old.items (place_of team v.task)).ids id
        ≡ false) visits.now }
    ensures { IsNoted table.old.items team visits.now id table.new.items }
{
    for visit in visits {
        put_at(table, place(team, visit.task), id);
    }
}
