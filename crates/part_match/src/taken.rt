// Tasks that parts have taken, each once.
ghost use Rattle.std.specs.Prelude.{◌≡◌, ◌≢◌, ◌++◌, ◌↔◌, [], AllPairs, Contains, IfOk, IsTrue, Ok, true};

use std::alloc::{AllocError, Global};
use std::marker::Model;

/// Tasks that are taken, in the order in which they were taken; none of them stands twice.
///
/// In contracts: the list of their numbers.
#[derive(Drop)]
pub struct Taken {
    tasks: Vec<u32>,
}

impl Model for Taken {
    ghost use Rattle.std.specs.Prelude.{List, ℕ};

    ghost Value = { List ℕ };

    ghost use Rattle.std.specs.Prelude.{AllPairs, ◌≢◌};

    ghost view = { λ a. a.tasks.items };

    ghost invariant = { λ a. AllPairs (λ t u. t ≢ u) a.tasks.items };
}

/// Whether the task is one of these.
fn has(tasks: &[u32], task: u32) -> bool
    ensures { IsTrue result ↔ Contains tasks.now task }
{
    tasks.contains(&task)
}

/// Whether the task is none of those that are taken, and none of these.
fn is_new(taken: &[u32], before: &[u32], task: u32) -> bool
    ensures { IsTrue result ↔ ¬ (Contains (taken.now ++ before.now) task) }
{
    if has(taken, task) {
        return false;
    }
    !has(before, task)
}

/// Whether none of the tasks is taken or stands twice among them.
fn are_new(taken: &[u32], tasks: &[u32]) -> bool
    requires { AllPairs (λ t u. t ≢ u) taken.now }
    ensures { IsTrue result ↔ AllPairs (λ t u. t ≢ u) (taken.now ++ tasks.now) }
{
    for k in 0..tasks.len() {
        if !is_new(taken, &tasks[..k], tasks[k]) {
            return false;
        }
    }
    true
}

impl Taken {
    /// No task is taken yet.
    pub fn new(alloc: Global) -> Taken
        ensures { result ≡ [] }
    {
        Taken {
            tasks: Vec::new(alloc),
        }
    }

    /// Takes tasks; false where one of them is taken already, or stands twice among them. All is then as before. Memory may run
    /// out; all is then as before, too.
    pub fn take(&mut self, tasks: &[u32]) -> Result<bool, AllocError>
        ensures answer { IfOk result (λ took.
            IsTrue took ↔ AllPairs (λ t u. t ≢ u) (self.old ++ tasks.now)) }
        ensures taken { result ≡ Ok true → self.new ≡ self.old ++ tasks.now }
        ensures same { result ≢ Ok true → self.new ≡ self.old }
        ensures once { AllPairs (λ t u. t ≢ u) self.new }
    {
        if !are_new(&self.tasks, tasks) {
            return Ok(false);
        }
        self.tasks.extend_from_slice(tasks)?;
        Ok(true)
    }
}
