// The names of an instance, and the numbers that they have in another.
ghost use Rattle.std.specs.Prelude.{◌≡◌, ◌≢◌, ◌<◌, ◌^◌, ℕ, List, All, AllPairs, IfOk, MatchOption, length};
ghost use Rattle.crew_terms.specs.declared.Visit.{Visit as TeamVisit};
ghost use Rattle.route_terms.specs.Named.{task_names as names_of_tasks, team_names as names_of_teams};
ghost use Rattle.column_arena.specs.Carried.{AreRenumbered, IsRenumbered};

use crew_instance::Instance;
use crew_terms::{Name, Visit};
use indexmap::IndexSet;
use std::alloc::{AllocError, Global};
use std::marker::Model;

/// The names of the teams, by number.
pub fn team_names(alloc: Global, instance: &Instance) -> Result<Vec<Name>, AllocError>
    ensures { IfOk result (λ names. names.items ≡ names_of_teams instance.now) }
{
    let mut names = Vec::with_capacity(alloc, instance.teams())?;
    for k in 0..instance.teams() as u32 {
        names.push(instance.team(k).name)?;
    }
    Ok(names)
}

/// The names of the tasks, by number.
pub fn task_names(alloc: Global, instance: &Instance) -> Result<Vec<Name>, AllocError>
    ensures { IfOk result (λ names. names.items ≡ names_of_tasks instance.now) }
{
    let mut names = Vec::with_capacity(alloc, instance.tasks())?;
    for j in 0..instance.tasks() as u32 {
        names.push(instance.task(j).name)?;
    }
    Ok(names)
}

// The names as a set, in their order.
fn set_of(alloc: Global, names: &[Name]) -> Result<IndexSet<Name>, AllocError>
    requires { AllPairs (λ a b. a ≢ b) names.now }
    ensures { IfOk result (λ set. set.keys ≡ names.now) }
{
    let mut set = IndexSet::with_capacity(alloc, names.len())?;
    for name in names {
        set.insert(*name)?;
    }
    Ok(set)
}

/// The names of teams, or of tasks, in an instance and in another, by number.
///
/// In contracts: the names in the old one, and those in the new one.
#[derive(Drop)]
pub struct Renumbering<'n> {
    old: &'n [Name],
    new: IndexSet<Name>,
}

impl<'n> Model for Renumbering<'n> {
    ghost use Rattle.std.specs.Prelude.{◌<◌, ◌^◌, length};
    ghost use Rattle.column_arena.specs.Carried.{TwoNames};

    ghost Value = { TwoNames };

    ghost view = { λ r. record { old = r.old.now; new = r.new.keys } };

    ghost invariant = { λ r. length r.new.keys < 2 ^ 32 };
}

impl<'n> Renumbering<'n> {
    /// From the old names, by their numbers, to the new ones, which differ.
    pub fn new(alloc: Global, old: &'n [Name], new: &[Name]) -> Result<Renumbering<'n>, AllocError>
        requires apart { AllPairs (λ a b. a ≢ b) new.now }
        requires few { length new.now < 2 ^ 32 }
        ensures { IfOk result (λ r. r ≡ record { old = old.now; new = new.now }) }
    {
        let new = set_of(alloc, new)?;
        Ok(Renumbering { old, new })
    }

    /// The new number that has the name of an old number; None exactly where there is none.
    pub fn number(&self, k: u32) -> Option<u32>
        requires { k < length self.now.old }
        ensures { MatchOption result ((j : ℕ) → IsRenumbered self.now k j → ⊥)
            (IsRenumbered self.now k) }
    {
        let old = self.old;
        let place = self.new.get_index_of(&old[k as usize])?;
        Some(place as u32)
    }
    /// The visits by the new numbers of their tasks; None exactly where one of these has no new number.
    pub fn visits(&self, alloc: Global, visits: &[Visit]) -> Result<Option<Vec<Visit>>, AllocError>
        requires { All (λ v. v.task < length self.now.old) visits.now }
        ensures { IfOk result (λ found. MatchOption found
            ((vs : List TeamVisit) → AreRenumbered self.now visits.now vs → ⊥)
            (λ vs. AreRenumbered self.now visits.now vs.items)) }
    {
        let mut new = Vec::with_capacity(alloc, visits.len())?;
        for visit in visits {
            let Some(task) = self.number(visit.task) else {
                return Ok(None);
            };
            new.push(Visit {
                task,
                start: visit.start,
            })?;
        }
        Ok(Some(new))
    }
}
