// The script by which a search goes.
ghost use Rattle.std.specs.Prelude.{IfOk, IfSome};
ghost use Rattle.crew_terms.specs.Leaf.{IsOnRequired};
ghost use Rattle.potentials.specs.Prices.{ArePricesOf};
ghost use Rattle.search_terms.specs.Choice.{IsValidChoice};

use crew_terms::Choice;
use node_limits::{Branch, Limits};
use node_solver::Script;
use potentials::Prices;
use std::alloc::{AllocError, Global};

/// The script by which a search goes, if its tree was rehearsed.
#[derive(Drop)]
pub(crate) struct Scripted {
    script: Option<Script>,
}

/// A node by the turns that lead to it from the root, and the script, if there is one.
#[derive(Clone, Copy)]
pub(crate) struct Place<'a> {
    scripted: &'a Scripted,
    turns: &'a [Branch],
}

impl Scripted {
    /// No script.
    pub(crate) fn none() -> Scripted {
        Scripted { script: None }
    }

    /// The node to which these turns lead from the root.
    pub(crate) fn place<'a>(&'a self, turns: &'a [Branch]) -> Place<'a> {
        Place {
            scripted: self,
            turns,
        }
    }

    /// Takes the script that a step made, if it made one. A script that aims at more than the `now` tasks that the best plan
    /// leaves unassigned is dropped.
    pub(crate) fn go_on(&mut self, made: Option<Script>, now: u32) {
        if made.is_some() {
            self.script = made;
        }
        if let Some(script) = &self.script {
            if script.goal() > now {
                self.script = None;
            }
        }
    }
}

impl<'a> Place<'a> {
    /// The choice by which the script splits the node, of which these are the limits; None where it stands nowhere in the script,
    /// or where the choice doesn't split it.
    pub(crate) fn choice(&self, limits: &Limits<'_>) -> Option<Choice>
        ensures { IfSome result (IsValidChoice limits.now.limits) }
    {
        match &self.scripted.script {
            Some(script) => script.choice_at(limits, self.turns),
            None => None,
        }
    }

    /// The script's prices of the node, of which these are the limits; None where the script has no leaf there. AllocError where
    /// there is no memory.
    pub(crate) fn prices(
        &self,
        alloc: Global,
        limits: &Limits<'_>,
    ) -> Result<Option<Prices>, AllocError>
        ensures prices { IfOk result (λ found. IfSome found (ArePricesOf limits.now.limits)) }
        ensures required { IfOk result (λ found. IfSome found (IsOnRequired limits.now.limits)) }
    {
        match &self.scripted.script {
            Some(script) => script.prices_at(alloc, limits, self.turns),
            None => Ok(None),
        }
    }
}
