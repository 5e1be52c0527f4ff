// Instances of generated days.
ghost use Rattle.std.specs.Prelude.{All};
ghost use Rattle.day_terms.specs.Ranges.{IsInRange};

use crew_instance::Instance;
use day_gen::{Entry, make};
use flight_changes::Desk;
use std::alloc::Global;
use std::test::Fail;

/// The desk after these entries.
fn desk_after(alloc: Global, entries: &[Entry]) -> Result<Desk, Fail>
    requires { All IsInRange entries.now }
{
    let mut desk = Desk::new(alloc);
    for entry in entries {
        desk.apply(entry)?;
    }
    Ok(desk)
}

/// The instance of the generated day with this number, of four teams and 15 tasks.
pub fn small_day(alloc: Global, number: u64) -> Result<Instance, Fail> {
    let entries = make(alloc, number, 4, 15, 0)?;
    let desk = desk_after(alloc, &entries)?;
    Ok(desk.instance()?)
}
