// What is wrong with entries that the state refuses, and what is remembered of those that it takes.

use crate::faults::{Fault, Thing};
use crate::names::Names;
use crate::sheets::name_given;
use crate::ways::{Way, Ways};
use crew_instance::{is_shift, is_span, is_team_count};
use crew_terms::Name;
use csv::ByteRecord;
use day_terms::Entry;
use flight_changes::ChangeFault;
use std::alloc::{AllocError, Global};
use std::mem;

/// What is remembered of the records so far.
#[derive(Drop)]
pub(crate) struct Memory {
    pub(crate) names: Names,
    ways: Ways,
    /// Whether it was told that a day has as many places, teams or tasks as it may have.
    full_places: bool,
    full_teams: bool,
    full_tasks: bool,
    /// Whether a record `now` was taken.
    behind_now: bool,
    /// The line of the first record behind it that may be refused for the sake of frozen work.
    pub(crate) may_be_frozen: Option<u64>,
    /// A name that is near to one that the last record lacks.
    pub(crate) near: Option<Name>,
    /// Two more places between which the last record lacks a time.
    pub(crate) other: Option<Way>,
}

/// Whether frozen work may forbid an entry.
fn may_be_forbidden(entry: &Entry) -> bool {
    !matches!(
        entry,
        Entry::Plan { .. } | Entry::Now { .. } | Entry::Thaw { .. } | Entry::DefaultTravel { .. }
    )
}

impl Memory {
    /// Nothing.
    pub(crate) fn new(alloc: Global) -> Result<Memory, AllocError> {
        Ok(Memory {
            names: Names::new(alloc),
            ways: Ways::new(alloc)?,
            full_places: false,
            full_teams: false,
            full_tasks: false,
            behind_now: false,
            may_be_frozen: None,
            near: None,
            other: None,
        })
    }

    /// Remembers the first entry behind a `now` that frozen work may forbid.
    fn look_for_frozen(&mut self, entry: &Entry, line: u64) {
        if let Entry::Now { .. } = entry {
            self.behind_now = true;
        }
        if self.behind_now && self.may_be_frozen.is_none() && may_be_forbidden(entry) {
            self.may_be_frozen = Some(line);
        }
    }

    /// Remembers an entry, on this line, that is taken.
    pub(crate) fn take(&mut self, entry: &Entry, line: u64) -> Result<(), AllocError> {
        self.look_for_frozen(entry, line);
        match *entry {
            Entry::Place { name } => {
                self.ways.add(&name)?;
                self.names.is_there(Thing::Place, &name, line)
            }
            Entry::Travel { from, to, .. } => {
                self.ways.set(&from, &to);
                self.ways.set(&to, &from);
                Ok(())
            }
            Entry::RouteTime { from, to, .. } => {
                self.ways.set(&from, &to);
                Ok(())
            }
            Entry::DefaultTravel { .. } => {
                self.ways.set_default();
                Ok(())
            }
            Entry::Team { name, .. } => self.names.is_there(Thing::Team, &name, line),
            Entry::Task { name, .. } => self.names.is_there(Thing::Task, &name, line),
            Entry::Cancel { task } => self.names.is_gone(Thing::Task, &task, line),
            Entry::Sick { team } => self.names.is_gone(Thing::Team, &team, line),
            _ => Ok(()),
        }
    }

    /// Remembers a record, with these fields on this line, that is refused in itself.
    pub(crate) fn leave_out(&mut self, row: &ByteRecord, line: u64) -> Result<(), AllocError> {
        match name_given(row) {
            Some((thing, name)) => self.names.is_refused(thing, &name, line),
            None => Ok(()),
        }
    }

    /// Whether it was told that a day has as many of these things as it may have. It is told now.
    fn told_full(&mut self, thing: Thing) -> bool {
        match thing {
            Thing::Place => mem::replace(&mut self.full_places, true),
            Thing::Team => mem::replace(&mut self.full_teams, true),
            Thing::Task => mem::replace(&mut self.full_tasks, true),
        }
    }

    /// Tells that a day has as many of these things as it may have.
    fn tell_full(&mut self, told: &mut Vec<Fault>, thing: Thing) -> Result<(), AllocError> {
        if !self.told_full(thing) {
            told.push(Fault::Full(thing))?;
        }
        Ok(())
    }

    /// Tells that the field with this number, on this line, names what is not there, if it does.
    fn tell_missing(
        &mut self,
        told: &mut Vec<Fault>,
        place: usize,
        thing: Thing,
        name: &Name,
        line: u64,
    ) -> Result<(), AllocError> {
        if self.names.has(thing, name) {
            return Ok(());
        }
        let near = self.names.near(thing, name);
        if let Some(fault) = self.names.miss(thing, name, place, line)? {
            self.near = near;
            told.push(fault)?;
        }
        Ok(())
    }

    /// Tells that a name which the record gives is that of a thing which is there, if it is.
    fn tell_same(
        &self,
        told: &mut Vec<Fault>,
        thing: Thing,
        name: &Name,
    ) -> Result<(), AllocError> {
        if self.names.has(thing, name) {
            let line = self.names.line_of(thing, name);
            told.push(Fault::SameName { thing, line })?;
        }
        Ok(())
    }

    /// Tells what is wrong with the names of an entry on this line.
    fn tell_names(
        &mut self,
        told: &mut Vec<Fault>,
        entry: &Entry,
        line: u64,
    ) -> Result<(), AllocError> {
        match *entry {
            Entry::Place { name } => self.tell_same(told, Thing::Place, &name),
            Entry::Travel { from, to, .. } | Entry::RouteTime { from, to, .. } => {
                self.tell_missing(told, 1, Thing::Place, &from, line)?;
                self.tell_missing(told, 2, Thing::Place, &to, line)
            }
            Entry::Team { name, home, .. } => {
                self.tell_same(told, Thing::Team, &name)?;
                self.tell_missing(told, 2, Thing::Place, &home, line)
            }
            Entry::Task { name, place, .. } => {
                self.tell_same(told, Thing::Task, &name)?;
                self.tell_missing(told, 2, Thing::Place, &place, line)
            }
            Entry::Cancel { task } | Entry::Move { task, .. } | Entry::Longer { task, .. } => {
                self.tell_missing(told, 1, Thing::Task, &task, line)
            }
            Entry::Needs { task, .. } | Entry::Thaw { task } => {
                self.tell_missing(told, 1, Thing::Task, &task, line)
            }
            Entry::Sick { team } | Entry::Shift { team, .. } => {
                self.tell_missing(told, 1, Thing::Team, &team, line)
            }
            Entry::Skill { team, .. } | Entry::Unskill { team, .. } => {
                self.tell_missing(told, 1, Thing::Team, &team, line)
            }
            Entry::DefaultTravel { .. } | Entry::Plan { .. } | Entry::Now { .. } => Ok(()),
        }
    }

    /// Tells that a travel time is missing, and how many others.
    fn tell_time(
        &mut self,
        told: &mut Vec<Fault>,
        from: &Name,
        to: &Name,
    ) -> Result<(), AllocError> {
        let (more, other, again) = self.ways.miss(from, to);
        if !again {
            self.other = other;
            told.push(Fault::NoTime { more })?;
        }
        Ok(())
    }

    /// All that is wrong with an entry on this line which the state refuses for this cause.
    pub(crate) fn refuse(
        &mut self,
        alloc: Global,
        entry: &Entry,
        fault: &ChangeFault,
        line: u64,
    ) -> Result<Vec<Fault>, AllocError> {
        let mut told = Vec::new(alloc);
        self.near = None;
        self.other = None;
        match (*fault, thing_of(entry)) {
            (ChangeFault::MissingTravel { from, to }, _) => {
                self.tell_time(&mut told, &from, &to)?
            }
            (ChangeFault::FrozenWork { .. }, _) => told.push(Fault::Frozen)?,
            (ChangeFault::TooMany, Some((thing, _))) => self.tell_full(&mut told, thing)?,
            _ => {}
        }
        self.tell_names(&mut told, entry, line)?;
        tell_numbers(&mut told, entry)?;
        if let Some((thing, name)) = thing_of(entry) {
            self.names.is_refused(thing, &name, line)?;
        }
        Ok(told)
    }
}

/// What an entry gives a name, and which.
fn thing_of(entry: &Entry) -> Option<(Thing, Name)> {
    match *entry {
        Entry::Place { name } => Some((Thing::Place, name)),
        Entry::Team { name, .. } => Some((Thing::Team, name)),
        Entry::Task { name, .. } => Some((Thing::Task, name)),
        _ => None,
    }
}

/// Tells that a window ends before it begins, or is too wide, if it does or is.
fn tell_window(told: &mut Vec<Fault>, earliest: u32, latest: u32) -> Result<(), AllocError> {
    if !is_span(earliest, latest) {
        told.push(Fault::BadWindow { earliest, latest })?;
    }
    Ok(())
}

/// Tells that a shift does not end after it begins, if it does not.
fn tell_shift(told: &mut Vec<Fault>, from: u32, until: u32) -> Result<(), AllocError> {
    if !is_shift(from, until) {
        told.push(Fault::BadShift { from, until })?;
    }
    Ok(())
}

/// Tells that no task may need so many teams, if none may.
fn tell_teams(told: &mut Vec<Fault>, teams: u32) -> Result<(), AllocError> {
    if !is_team_count(teams) {
        told.push(Fault::BadTeams { teams })?;
    }
    Ok(())
}

/// Tells what is wrong with the numbers of an entry.
fn tell_numbers(told: &mut Vec<Fault>, entry: &Entry) -> Result<(), AllocError> {
    match *entry {
        Entry::Team { from, until, .. } | Entry::Shift { from, until, .. } => {
            tell_shift(told, from, until)
        }
        Entry::Task {
            earliest,
            latest,
            teams,
            ..
        } => {
            tell_window(told, earliest, latest)?;
            tell_teams(told, teams)
        }
        Entry::Move {
            earliest,
            latest,
            ..
        } => tell_window(told, earliest, latest),
        Entry::Needs { teams, .. } => tell_teams(told, teams),
        _ => Ok(()),
    }
}
