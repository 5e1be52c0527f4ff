// The open nodes of a search, under keys, in order of bound and age.
#![tactic(auto)]

ghost use Rattle.std.specs.Prelude.{◌≡◌, ◌≢◌, ◌<◌, ◌++◌, [], ◌∷◌, length, slice_index, AllPairs, Contains, IfOk, IfNone, IfSome, OnErr};
ghost use Rattle.std.specs.Option.{option_map};
ghost use Rattle.node_queue.specs.Waits.{IsLeast, found, keys_of, without};

use slab::Slab;
use std::alloc::{AllocError, Global};
use std::collections::BTreeMap;
use std::marker::Model;

/// An open node that waits: its number, and the bound that its prices give.
#[derive(Clone, Copy, Debug, PartialEq, Eq)]
pub struct Waiting {
    pub bound: i128,
    pub item: u32,
}

/// What waits under a key, and how many had been put before it.
#[derive(Clone, Copy)]
struct Entry {
    age: u64,
    waiting: Waiting,
}

/// What waits, under keys, by age. Where `n` wait, `put`, `least` and `take` do some `log n` steps.
#[derive(Drop)]
pub struct Queue {
    entries: Slab<Entry>,
    // The key of each age, and of each bound with its age.
    ages: BTreeMap<u64, usize>,
    order: BTreeMap<(i128, u64), usize>,
    next_age: u64,
}

impl Model for Queue {
    ghost use Rattle.node_queue.specs.Waits.{Waits};

    ghost Value = { Waits };

    ghost use Rattle.node_queue.specs.Kept.{waits, IsKept};

    ghost view = { waits };

    ghost invariant = { IsKept };
}

impl Queue {
    /// A queue in which nothing waits.
    pub fn new(alloc: Global) -> Queue
        ensures { result ≡ [] }
    {
        Queue {
            entries: Slab::new(alloc),
            ages: BTreeMap::new(alloc),
            order: BTreeMap::new(alloc),
            next_age: 0,
        }
    }

    /// Lets an item wait, under a key that nothing waits under. After want of memory the queue is as before; want of ages, of
    /// which there are some 2^64, is told as such.
    pub fn put(&mut self, bound: i128, item: u32) -> Result<usize, AllocError>
        ensures fresh { IfOk result (λ key. Contains (keys_of self.old) key → ⊥) }
        ensures last { IfOk result
            (λ key. self.new ≡ self.old ++ (key, record { bound = bound; item = item }) ∷ []) }
        ensures err { OnErr result (self.new ≡ self.old) }
    {
        let age = self.next_age;
        let next_age = age.checked_add(1).ok_or(AllocError)?;
        self.entries.reserve(1)?;
        let key = self.entries.vacant_key();
        self.order.insert((bound, age), key)?;
        if let Err(fault) = self.ages.insert(age, key) {
            self.order.remove(&(bound, age));
            return Err(fault.into());
        }
        let waiting = Waiting { bound, item };
        self.entries.insert_reserved(Entry { age, waiting });
        self.next_age = next_age;
        Ok(key)
    }

    /// The key of the oldest of those of least bound; None exactly where nothing waits.
    pub fn least(&self) -> Option<usize>
        ensures none { IfNone result (self.now ≡ []) }
        ensures least { IfSome result (IsLeast self.now) }
    {
        match self.order.first_key_value() {
            Some((_, key)) => Some(*key),
            None => None,
        }
    }

    /// Takes what waits under the key; None exactly where nothing does.
    pub fn take(&mut self, key: usize) -> Option<(i128, u32)>
        ensures taken { result ≡
            option_map (λ waiting. (waiting.bound, waiting.item)) (found self.old key) }
        ensures rest { self.new ≡ without self.old key }
    {
        match self.entries.try_remove(key) {
            Some(Entry { age, waiting }) => {
                self.ages.remove(&age);
                self.order.remove(&(waiting.bound, age));
                Some((waiting.bound, waiting.item))
            }
            None => None,
        }
    }

    /// The item that waits under the key; None exactly where none does.
    pub fn item(&self, key: usize) -> Option<u32>
        ensures { result ≡ option_map (λ waiting. waiting.item) (found self.now key) }
    {
        match self.entries.get(key) {
            Some(entry) => Some(entry.waiting.item),
            None => None,
        }
    }

    /// The bound of what waits under the key; None exactly where nothing does.
    pub fn bound(&self, key: usize) -> Option<i128>
        ensures { result ≡ option_map (λ waiting. waiting.bound) (found self.now key) }
    {
        match self.entries.get(key) {
            Some(entry) => Some(entry.waiting.bound),
            None => None,
        }
    }

    /// How many wait; no two under one key.
    pub fn len(&self) -> usize
        ensures count { result ≡ length self.now }
        ensures differ { AllPairs (λ a b. a ≢ b) (keys_of self.now) }
    {
        self.ages.len()
    }

    /// The n-th key by age, from 0. It goes through the older ones.
    pub fn key(&self, n: usize) -> usize
        requires { n < length self.now }
        ensures { result ≡ slice_index (keys_of self.now) n }
    {
        *self.ages.values().nth(n).unwrap()
    }
}
