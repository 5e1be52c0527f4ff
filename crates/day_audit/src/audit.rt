// An audit: the entries of a day in turn, and a dossier for each of its rounds.
ghost use Rattle.std.specs.Prelude.{◌≡◌, ◌≢◌, ◌⊎◌, Some, Ok, IfErr, IfOk, IsSome, OnErr, OnOk, option_map};
ghost use Rattle.cert_checker.specs.Checked.{IsEnded, IsWholeAt};
ghost use Rattle.day_terms.specs.Instances.{day_instance};
ghost use Rattle.day_terms.specs.Ranges.{IsInRange};
ghost use Rattle.day_terms.specs.Refusal.{Refusal, refusal_by_lists, refusal_of};
ghost use Rattle.day_terms.specs.Rounds.{Round};
ghost use Rattle.dossier_terms.specs.Dossier.{Dossier, IsGood};
ghost use Rattle.flight_changes.specs.Faults.{fault_of};
ghost use Rattle.day_audit.specs.Audited.{IsNext, behind_dossier, behind_entry, no_entry_yet};
ghost use Rattle.day_audit.specs.Belongs.{IsFit};
ghost use Rattle.day_audit.specs.Kept.{handed_in};

use crate::kept::{keeps, kept_routes, pool_of};
use cert_checker::Checker;
use column_arena::Carry;
use crew_instance::Instance;
use flight_changes::{ChangeFault, Desk, Entry, PlannedJobs};
use route_terms::kept_routes_are_one;
use same_instance::are_same;
use std::alloc::{AllocError, Global};
use std::marker::Model;

/// What an entry comes to that is taken.
#[derive(Clone, Copy, Debug, PartialEq, Eq)]
pub enum Next {
    /// It changed the day's state.
    Changed,
    /// It begins a round, whose dossier is due.
    Due,
}

/// Whether a dossier belongs to the round that is due, or the first thing that differs.
#[derive(Clone, Copy, Debug, PartialEq, Eq)]
pub enum Fit {
    /// It belongs to the round.
    Fits,
    /// Its instance is another: a place, a team, a task, a travel time or a frozen job differs.
    Instance,
    /// Its node budget is another.
    Nodes,
    /// It keeps other routes than the round does of the pool before, or keeps them in another order.
    Kept,
}

/// An audit of a day: each entry that is not refused changes the day's state or begins a round, and the dossier of each
/// round is compared with it.
///
/// In contracts: the day's state, the round whose dossier is due, and the routes that it is handed.
#[derive(Drop)]
pub struct Audit {
    alloc: Global,
    desk: Desk,
    // The node budget of the round whose dossier is due.
    due: Option<u32>,
    // The pool of the dossier before, by names.
    carry: Option<Carry>,
}

impl Model for Audit {
    ghost use Rattle.day_audit.specs.Audited.{Audited};

    ghost Value = { Audited };

    ghost use Rattle.day_audit.specs.Kept.{audited};

    ghost view = { audited };
}

/// What is told of the dossier that is whole beside the round of this instance and budget, which is handed the carried
/// routes.
fn fit_of(
    alloc: Global,
    carry: &Option<Carry>,
    instance: &Instance,
    nodes: u32,
    checker: &Checker,
) -> Result<Fit, AllocError>
    requires { IsEnded checker.now.at }
    ensures { (d : Dossier) → IsWholeAt checker.now.at d → IsGood d → IfOk result
        (IsFit (handed_in carry.now) (record { instance = instance.now; nodes = nodes }) d) }
{
    kept_routes_are_one();
    // What always holds of the instance is known from here on.
    let _ = instance.teams();
    if !are_same(checker.instance(), instance) {
        return Ok(Fit::Instance);
    }
    if checker.nodes() != nodes {
        return Ok(Fit::Nodes);
    }
    let kept = kept_routes(alloc, instance, carry)?;
    if !keeps(checker, &kept) {
        return Ok(Fit::Kept);
    }
    Ok(Fit::Fits)
}

impl Audit {
    /// An audit of a day before its first entry.
    pub fn new(alloc: Global) -> Audit
        ensures { result ≡ no_entry_yet }
    {
        Audit {
            alloc,
            desk: Desk::new(alloc),
            due: None,
            carry: None,
        }
    }

    /// Takes an entry. Due exactly where it begins a round; the dossier of that round is then due, and no other one. An entry
    /// is refused with the first condition of its kind that holds, and then where frozen work forbids it; all is then as
    /// before. Memory may run out; all is then as before, too.
    pub fn entry(&mut self, entry: &Entry) -> Result<Next, ChangeFault>
        requires { IsInRange entry.now }
        ensures taken { OnOk result (refusal_of self.old.day entry.now ≡ None) }
        ensures next { IfOk result (IsNext self.old.day entry.now) }
        ensures ok { OnOk result (self.new ≡ behind_entry self.old entry.now) }
        ensures err { OnErr result (self.new ≡ self.old) }
        ensures told { IfErr result (λ fault. (fault ≡ ChangeFault.OutOfMemory)
            ⊎ (option_map fault_of (refusal_of self.old.day entry.now) ≡ Some fault)) }
        ensures by_lists { (told : Refusal) → refusal_by_lists self.old.day entry.now ≡ Some told →
            result ≡ Err (fault_of told) }
    {
        self.desk.apply(entry)?;
        let Entry::Plan { nodes } = *entry else {
            self.due = None;
            return Ok(Next::Changed);
        };
        self.due = Some(nodes);
        Ok(Next::Due)
    }

    /// Compares the dossier that the checker has just read with the round whose dossier is due. Where it fits, its plan is the
    /// day's last plan, its pool is handed on, and no dossier is due; else all is as before. AllocError where there is no
    /// memory, in place of any answer.
    pub fn dossier(&mut self, checker: &Checker) -> Result<Fit, AllocError>
        requires due { IsSome self.old.due }
        requires whole { IsEnded checker.now.at }
        ensures fit { (round : Round) (d : Dossier) → self.old.due ≡ Some round →
            IsWholeAt checker.now.at d → IsGood d → IfOk result (IsFit self.old.handed round d) }
        ensures fits { (d : Dossier) → IsWholeAt checker.now.at d → IsGood d →
            result ≡ Ok Fit.Fits → self.new ≡ behind_dossier self.old d }
        ensures same { result ≢ Ok Fit.Fits → self.new ≡ self.old }
    {
        let Some(nodes) = self.due else {
            unreachable!();
        };
        let Ok(instance) = self.desk.instance() else {
            return Err(AllocError);
        };
        match fit_of(self.alloc, &self.carry, &instance, nodes, checker)? {
            Fit::Fits => {}
            other => return Ok(other),
        }
        self.follow(checker)?;
        Ok(Fit::Fits)
    }

    /// Has the plan of the dossier that is whole in the place of the last plan, and its pool handed on.
    fn follow(&mut self, checker: &Checker) -> Result<(), AllocError>
        requires whole { IsEnded checker.now.at }
        requires instance { (d : Dossier) → IsWholeAt checker.now.at d → IsGood d →
            d.instance ≡ day_instance self.old.day }
        ensures ok { (d : Dossier) → IsWholeAt checker.now.at d → IsGood d →
            OnOk result (self.new ≡ behind_dossier self.old d) }
        ensures err { OnErr result (self.new ≡ self.old) }
    {
        // That the dossier is good is known from here on.
        let _ = checker.is_between();
        let pool = pool_of(self.alloc, checker)?;
        let carry = Carry::take(self.alloc, checker.instance(), &pool)?;
        let jobs = PlannedJobs::of(self.alloc, checker.instance(), checker.plan())?;
        self.desk.planned(jobs);
        self.carry = Some(carry);
        self.due = None;
        Ok(())
    }
}
