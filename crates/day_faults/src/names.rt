// The names that records give, and what became of them.

use crate::faults::{Fate, Fault, Thing};
use crew_terms::Name;
use day_hints::is_near;
use std::alloc::{AllocError, Global};

/// So many names are remembered: all that a day may have at once, and others that are not there.
const MOST_KNOWN: usize = 1500;

/// What became of a name.
#[derive(Clone, Copy, Debug, PartialEq, Eq)]
enum State {
    /// Its record comes later.
    Later,
    /// It is there.
    There,
    /// It is no more.
    Gone,
    /// Its record is refused.
    Refused,
    /// No record gives it.
    Missing,
}

/// A name, what became of it and on which line, and whether it was told that it is not there.
#[derive(Clone, Copy)]
struct Known {
    thing: Thing,
    name: Name,
    state: State,
    line: u64,
    told: bool,
}

/// The names that records give.
#[derive(Drop)]
pub(crate) struct Names {
    known: Vec<Known>,
}

impl Names {
    /// No names.
    pub(crate) fn new(alloc: Global) -> Names {
        Names {
            known: Vec::new(alloc),
        }
    }

    /// Where the name is remembered.
    fn find(&self, thing: Thing, name: &Name) -> Option<usize> {
        for (at, known) in self.known.iter().enumerate() {
            if known.thing == thing && known.name == *name {
                return Some(at);
            }
        }
        None
    }

    /// Where a name is remembered that is not there, if so many are remembered that one has to go.
    fn to_go(&self) -> Option<usize> {
        if self.known.len() < MOST_KNOWN {
            return None;
        }
        for (at, known) in self.known.iter().enumerate() {
            if known.state != State::There {
                return Some(at);
            }
        }
        None
    }

    /// Remembers what became of a name, in the place of what was remembered of it.
    fn put(
        &mut self,
        thing: Thing,
        name: &Name,
        state: State,
        line: u64,
    ) -> Result<(), AllocError> {
        let put = Known {
            thing,
            name: *name,
            state,
            line,
            told: state == State::Missing,
        };
        let at = match self.find(thing, name) {
            Some(at) => Some(at),
            None => self.to_go(),
        };
        let Some(at) = at else {
            self.known.push(put)?;
            return Ok(());
        };
        if let Some(known) = self.known.get_mut(at) {
            *known = put;
        }
        Ok(())
    }

    /// The name comes on this line, unless an earlier line has it.
    pub(crate) fn comes(&mut self, thing: Thing, name: &Name, line: u64) -> Result<(), AllocError> {
        if self.known.len() >= MOST_KNOWN || self.find(thing, name).is_some() {
            return Ok(());
        }
        self.put(thing, name, State::Later, line)
    }

    /// The name is there since this line.
    pub(crate) fn is_there(
        &mut self,
        thing: Thing,
        name: &Name,
        line: u64,
    ) -> Result<(), AllocError> {
        self.put(thing, name, State::There, line)
    }

    /// The name is no more since this line.
    pub(crate) fn is_gone(
        &mut self,
        thing: Thing,
        name: &Name,
        line: u64,
    ) -> Result<(), AllocError> {
        self.put(thing, name, State::Gone, line)
    }

    /// The record of the name on this line is refused. A name that is there stays so.
    pub(crate) fn is_refused(
        &mut self,
        thing: Thing,
        name: &Name,
        line: u64,
    ) -> Result<(), AllocError> {
        if self.has(thing, name) {
            return Ok(());
        }
        self.put(thing, name, State::Refused, line)
    }

    /// What is remembered of a name.
    fn known(&self, thing: Thing, name: &Name) -> Option<Known> {
        let at = self.find(thing, name)?;
        self.known.get(at).copied()
    }

    /// Whether the name is there.
    pub(crate) fn has(&self, thing: Thing, name: &Name) -> bool {
        match self.known(thing, name) {
            Some(known) => known.state == State::There,
            None => false,
        }
    }

    /// The line since which the name is there, or 0.
    pub(crate) fn line_of(&self, thing: Thing, name: &Name) -> u64 {
        match self.known(thing, name) {
            Some(known) => known.line,
            None => 0,
        }
    }

    /// A name that is there and differs by a letter.
    pub(crate) fn near(&self, thing: Thing, name: &Name) -> Option<Name> {
        for known in &self.known {
            if known.thing == thing
                && known.state == State::There
                && is_near(known.name.bytes(), name.bytes())
            {
                return Some(known.name);
            }
        }
        None
    }

    /// The fault that the field with this number, on this line, has a name that is not there, unless it was told. It is told now.
    pub(crate) fn miss(
        &mut self,
        thing: Thing,
        name: &Name,
        place: usize,
        line: u64,
    ) -> Result<Option<Fault>, AllocError> {
        let (fate, since, again) = self.fate(thing, name);
        match self.find(thing, name) {
            Some(at) => self.tell(at),
            None => self.put(thing, name, State::Missing, line)?,
        }
        if again {
            return Ok(None);
        }
        Ok(Some(Fault::NoSuch {
            place,
            thing,
            fate,
            line: since,
        }))
    }

    /// What became of a name that is not there, on which line, and whether that was told.
    fn fate(&self, thing: Thing, name: &Name) -> (Fate, u64, bool) {
        let Some(known) = self.known(thing, name) else {
            return (Fate::Unknown, 0, false);
        };
        let fate = match known.state {
            State::Later => Fate::Later,
            State::Refused => Fate::Refused,
            State::Gone => Fate::Gone,
            State::There | State::Missing => Fate::Unknown,
        };
        (fate, known.line, known.told)
    }

    /// It is told that the name that is remembered there is no name of a thing.
    fn tell(&mut self, at: usize) {
        if let Some(known) = self.known.get_mut(at) {
            known.told = true;
        }
    }
}
