// Bases of programs, and how a node begins with that of another one.

use crate::pool::Pool;
use crate::program::Program;
use crate::rows::{Class, Row};
use crate::variables::Name;
use node_limits::Limits;
use std::alloc::{AllocError, Global};

/// A basis at rest: what its variables are, and for each team the first of its class.
#[derive(Drop)]
pub(crate) struct Basis {
    names: Vec<Name>,
    firsts: Vec<u32>,
}

impl Basis {
    /// None.
    pub(crate) fn none(alloc: Global) -> Basis {
        Basis {
            names: Vec::new(alloc),
            firsts: Vec::new(alloc),
        }
    }
}

impl Program {
    // The first team of the class to which the shares of another node's class go: the greatest of those that come of it.
    fn heir(&self, basis: &Basis, first: u32) -> u32 {
        let mut heir = first;
        let mut most = 0;
        for class in &self.rows.classes {
            if basis.firsts.get(class.first as usize) == Some(&first) && class.teams > most {
                heir = class.first;
                most = class.teams;
            }
        }
        heir
    }

    // What a variable of another node is here.
    fn renamed(&self, basis: &Basis, name: Name) -> Name {
        match name {
            Name::Share { route, team } => Name::Share {
                route,
                team: self.heir(basis, team),
            },
            Name::Lack(Row::Class(team)) => Name::Lack(Row::Class(self.heir(basis, team))),
            Name::Lack(_) | Name::Excess(_) | Name::Unassigned(_) | Name::Barred => name,
        }
    }

    // Adds what is no variable of the node, but was one in another; None where that isn't known.
    fn bar(
        &mut self,
        limits: &Limits<'_>,
        pool: &Pool,
        name: Name,
    ) -> Result<Option<usize>, AllocError> {
        match name {
            Name::Share { route, team } => {
                let (Some(class), Some(found)) = (self.rows.of_class(team), pool.route(route))
                else {
                    return Ok(None);
                };
                let rows = self.rows.of_route(self.alloc, class, team, found.visits())?;
                Ok(Some(self.simplex.variables.add_barred(1, rows, None)?))
            }
            Name::Unassigned(task) => {
                let row = self.rows.of_task(task);
                let teams = self.rows.places(limits, Row::Task(task));
                let rows = vec![in self.alloc; row]?;
                Ok(Some(self.simplex.variables.add_barred(teams, rows, None)?))
            }
            Name::Lack(_) | Name::Excess(_) | Name::Barred => Ok(None),
        }
    }

    // Adds what a class has lent to the greatest of those that come of the same one, if it is none.
    fn lend(
        &mut self,
        basis: &Basis,
        class: usize,
        basics: &mut Vec<usize>,
    ) -> Result<(), AllocError> {
        let Some(Class { first, .. }) = self.rows.classes.get(class).copied() else {
            return Ok(());
        };
        let Some(above) = basis.firsts.get(first as usize) else {
            return Ok(());
        };
        let heir = self.heir(basis, *above);
        if heir == first {
            return Ok(());
        }
        let against = self.rows.of_class(heir);
        let rows = vec![in self.alloc; class]?;
        basics.push(self.simplex.variables.add_barred(1, rows, against)?)?;
        Ok(())
    }

    // The number of what was a variable of another node.
    fn number(
        &mut self,
        limits: &Limits<'_>,
        pool: &Pool,
        name: Name,
    ) -> Result<Option<usize>, AllocError> {
        match self.simplex.variables.find(name) {
            Some(at) => Ok(Some(at)),
            None => self.bar(limits, pool, name),
        }
    }

    /// Begins with the basis of another node. What is no variable of this one has a high cost.
    pub(crate) fn begin_with(
        &mut self,
        limits: &Limits<'_>,
        pool: &Pool,
        basis: &Basis,
    ) -> Result<(), AllocError> {
        if basis.names.is_empty() {
            return Ok(());
        }
        let mut basics = Vec::new(self.alloc);
        for name in &basis.names {
            if let Some(at) = self.number(limits, pool, self.renamed(basis, *name))? {
                basics.push(at)?;
            }
        }
        for class in 0..self.rows.classes.len() {
            self.lend(basis, class, &mut basics)?;
        }
        self.simplex.begin_with(basics)
    }

    /// The basis, at rest.
    pub(crate) fn basis(&self, firsts: Vec<u32>) -> Result<Basis, AllocError> {
        let mut names = Vec::new(self.alloc);
        for line in &self.simplex.lines {
            if let Some(variable) = self.simplex.variables.list.get(line.basic) {
                names.push(variable.name)?;
            }
        }
        Ok(Basis { names, firsts })
    }
}
