// The travel times that records give.

use crew_terms::{MOST_PLACES, Name};
use std::alloc::{AllocError, Global};

/// Two places, in order.
pub(crate) type Way = (Name, Name);

/// Which travel times are given.
#[derive(Drop)]
pub(crate) struct Ways {
    places: Vec<Name>,
    /// For each place a row of the places to which a time is given.
    given: Vec<bool>,
    has_default: bool,
    /// Whether what is missing was told, since the last place came.
    told: bool,
}

/// The place of the way from the one place to the other.
fn cell(from: usize, to: usize) -> usize {
    from.saturating_mul(MOST_PLACES).saturating_add(to)
}

impl Ways {
    /// No places.
    pub(crate) fn new(alloc: Global) -> Result<Ways, AllocError> {
        Ok(Ways {
            places: Vec::new(alloc),
            given: vec![in alloc; false; MOST_PLACES * MOST_PLACES]?,
            has_default: false,
            told: false,
        })
    }

    /// There is one more place.
    pub(crate) fn add(&mut self, place: &Name) -> Result<(), AllocError> {
        self.told = false;
        self.places.push(*place)?;
        Ok(())
    }

    /// A time stands between all places.
    pub(crate) fn set_default(&mut self) {
        self.has_default = true;
    }

    /// The number of a place.
    fn number_of(&self, place: &Name) -> Option<usize> {
        for (n, name) in self.places.iter().enumerate() {
            if *name == *place {
                return Some(n);
            }
        }
        None
    }

    /// A time is given from the one place to the other.
    pub(crate) fn set(&mut self, from: &Name, to: &Name) {
        let (Some(from), Some(to)) = (self.number_of(from), self.number_of(to)) else {
            return;
        };
        if let Some(given) = self.given.get_mut(cell(from, to)) {
            *given = true;
        }
    }

    /// Whether no time is known from the place with the one number to that with the other.
    fn lacks(&self, from: usize, to: usize) -> bool {
        if self.has_default || from == to {
            return false;
        }
        match self.given.get(cell(from, to)) {
            Some(given) => !*given,
            None => false,
        }
    }

    /// The places with these numbers.
    fn way(&self, from: usize, to: usize) -> Option<Way> {
        Some((*self.places.get(from)?, *self.places.get(to)?))
    }

    /// How many ways from this place have no time, but for the one to this other place, and the first of them.
    fn missing_from(&self, from: usize, but: Option<usize>) -> (u64, Option<Way>) {
        let mut count = 0u64;
        let mut first = None;
        for to in 0..self.places.len() {
            if self.lacks(from, to) && but != Some(to) {
                count = count.saturating_add(1);
                if first.is_none() {
                    first = self.way(from, to);
                }
            }
        }
        (count, first)
    }

    /// How many ways but this one have no time, the first of them, and whether that was told since the last place came. It is
    /// told now.
    pub(crate) fn miss(&mut self, from: &Name, to: &Name) -> (u64, Option<Way>, bool) {
        if self.told {
            return (0, None, true);
        }
        self.told = true;
        let (told_from, told_to) = (self.number_of(from), self.number_of(to));
        let mut count = 0u64;
        let mut first = None;
        for n in 0..self.places.len() {
            let but = if told_from == Some(n) { told_to } else { None };
            let (more, way) = self.missing_from(n, but);
            count = count.saturating_add(more);
            if first.is_none() {
                first = way;
            }
        }
        (count, first, false)
    }
}
