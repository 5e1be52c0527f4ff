// Calls that are numbered from 1, some of which fail.
ghost use Rattle.std.specs.Prelude.{◌≡◌, ◌↔◌, IsTrue};
ghost use Rattle.crew_io.specs.Io.{one_more};
ghost use Rattle.crew_io.specs.Memory.{FailsNext};

/// The numbers of the calls that fail, and the counts of calls and of faults.
#[derive(Drop)]
pub struct Script {
    pub fails: Vec<u64>,
    pub calls: u64,
    pub faults: u64,
}

/// Whether the number of the next call stands in the list.
fn is_due(fails: &[u64], calls: u64) -> bool
    ensures { IsTrue result ↔ FailsNext fails.now calls }
{
    match calls.checked_add(1) {
        Some(number) => fails.contains(&number),
        None => false,
    }
}

impl Script {
    /// A script with no call yet, whose calls of these numbers, from 1, fail.
    pub fn new(fails: Vec<u64>) -> Script
        ensures { result ≡ record { fails = fails; calls = 0; faults = 0 } }
    {
        Script {
            fails,
            calls: 0,
            faults: 0,
        }
    }

    /// Counts a call, and says whether it is due to fail.
    pub fn call(&mut self) -> bool
        ensures due { IsTrue result ↔ FailsNext self.old.fails.items self.old.calls }
        ensures counted { self.new ≡ record self.old { calls = one_more self.old.calls } }
    {
        let is_due = is_due(&self.fails, self.calls);
        self.calls = self.calls.saturating_add(1);
        is_due
    }

    /// Counts a fault.
    pub fn fail(&mut self)
        ensures { self.new ≡ record self.old { faults = one_more self.old.faults } }
    {
        self.faults = self.faults.saturating_add(1);
    }
}
