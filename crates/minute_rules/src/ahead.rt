// What a team can still earn from a task at some minute or later.
ghost use Rattle.std.specs.Prelude.{◌≡◌, ◌≤◌, ◌<◌, ◌+◌, ◌-◌, ◌^◌, length, pos, slice_index_or, min, nat_le, nat_lt, ◌&&◌, if◌then◌else◌};
ghost use Rattle.crew_terms.specs.declared.TheConstants.{LAST_MINUTE};
ghost use Rattle.minute_rules.specs.declared.ahead.TheConstants.{MINUTES};
ghost use Rattle.minute_rules.specs.Ahead.{AreMostFrom, potential_from};

use crew_terms::LAST_MINUTE;
use std::alloc::{AllocError, Global};

/// One for each minute of the days, and one for all after them.
pub(crate) const MINUTES: usize = LAST_MINUTE as usize + 2;

/// For each minute of the days the most of a task's potentials from there on, in 1/D of a task, and 0 where none is more.
#[derive(Drop)]
pub(crate) struct Ahead {
    most: Vec<i64>,
    ghost minutes: { length most.items ≡ MINUTES },
}

/// The potential at a minute, where the first is that of minute `first`; 0 where there is none.
fn potential_at(first: u32, potentials: &[i64], minute: u32) -> i64
    ensures { result ≡ potential_from first potentials.now minute }
{
    if minute < first {
        return 0;
    }
    let place = (minute - first) as usize;
    if place < potentials.len() {
        potentials[place]
    } else {
        0
    }
}

/// Puts the most of the potentials from each minute on in the place of what the list holds.
fn find(most: &mut [i64], first: u32, potentials: &[i64])
    requires minutes { length most.old ≡ MINUTES }
    requires day { first + length potentials.now ≤ LAST_MINUTE + 1 }
    ensures { AreMostFrom first potentials.now most.new }
{
    let mut here = 0;
    for minute in (0..MINUTES).rev() {
        here = here.max(potential_at(first, potentials, minute as u32));
        most[minute] = here;
    }
}

impl Ahead {
    /// Takes the room, and has found nothing yet; AllocError where there is no room.
    pub fn new(alloc: Global) -> Result<Ahead, AllocError> {
        let most = vec![in alloc; 0; MINUTES]?;
        Ok(Ahead { most })
    }

    /// Finds the most of these potentials, of which the first is that of minute `first`. It takes no memory.
    pub fn find(&mut self, first: u32, potentials: &[i64])
        requires { first + length potentials.now ≤ LAST_MINUTE + 1 }
        ensures { AreMostFrom first potentials.now self.new.most.items }
    {
        find(&mut self.most, first, potentials);
    }

    /// The most from this minute on; 0 after the days.
    pub fn from(&self, minute: u32) -> i64
        ensures { result ≡ slice_index_or self.now.most.items (min minute (LAST_MINUTE + 1)) (pos 0) }
    {
        let place = minute.min(LAST_MINUTE + 1);
        self.most[place as usize]
    }
}
