// The falls of a task: of its visits, those whose potential is below that of each earlier one. What can follow a visit only gets
// less with the minute, so the other visits need no test of their own.
ghost use Rattle.std.specs.Prelude.{◌≡◌, ◌≤◌, ◌<◌, ◌+◌, ◌^◌, ◌≤ℤ◌, [], length, vec_capacity, Contains, IfOk, IsTrue};
ghost use Rattle.potentials.specs.declared.records.TheConstants.{MOST_MINUTES};
ghost use Rattle.potentials.specs.Falls.{AreFalls};
ghost use Rattle.potentials.specs.declared.records.Record.{Record};

use crate::records::{MOST_MINUTES, Record};
use std::alloc::{AllocError, Global};

/// The falls of one task, the first minute first, with room for those of any window.
#[derive(Drop)]
pub(crate) struct Falls {
    pub list: Vec<Record>,
    ghost room: { MOST_MINUTES ≤ vec_capacity list },
}

impl Falls {
    /// Takes the room, and has found none yet; AllocError where there is no room.
    pub fn new(alloc: Global) -> Result<Falls, AllocError>
        ensures { IfOk result (λ falls. falls.list.items ≡ []) }
    {
        Ok(Falls {
            list: Vec::with_capacity(alloc, MOST_MINUTES)?,
        })
    }

    /// Finds the falls of these potentials, one for each minute of a window that opens at minute `opens`. It takes no
    /// memory.
    pub fn find(&mut self, opens: u32, potentials: &[i64])
        requires short { length potentials.now ≤ MOST_MINUTES }
        requires minutes { opens + length potentials.now < 2 ^ 32 }
        ensures { AreFalls potentials.now opens self.new.list.items }
    {
        find(&mut self.list, opens, potentials);
    }
}

/// Whether the last one found is no higher than this potential.
fn is_reached(list: &Vec<Record>, potential: i64) -> bool
    ensures { IsTrue result → (f : Record) × Contains list.now.items f × (f.potential ≤ℤ potential) }
{
    match list.last() {
        Some(last) => last.potential <= potential,
        None => false,
    }
}

/// Puts the falls of these potentials in the place of what the list holds.
fn find(list: &mut Vec<Record>, opens: u32, potentials: &[i64])
    requires room { MOST_MINUTES ≤ vec_capacity list.old }
    requires short { length potentials.now ≤ MOST_MINUTES }
    requires minutes { opens + length potentials.now < 2 ^ 32 }
    ensures falls { AreFalls potentials.now opens list.new.items }
    ensures room { MOST_MINUTES ≤ vec_capacity list.new }
{
    list.clear();
    for a in 0..potentials.len() {
        let potential = potentials[a];
        if is_reached(list, potential) {
            continue;
        }
        let minute = opens + a as u32;
        list.push(Record { minute, potential }).unwrap();
    }
}
