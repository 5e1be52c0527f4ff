// Gathers the records of the tasks of a place in its list. That the list says what it should is tested where it is used.
use crate::ahead::{Ahead, Best};
use crate::records::Record;

/// What is ahead where no visit is; its number is that of no task.
const NOTHING: Best = Best {
    minute: u32::MAX,
    task: u32::MAX,
    potential: 0,
    second: 0,
};

impl Best {
    /// The best ones of these and of a visit of this task with this potential, from this minute on.
    fn with(self, task: u32, potential: i64, minute: u32) -> Best {
        if task == self.task {
            let potential = potential.max(self.potential);
            return Best {
                minute,
                potential,
                ..self
            };
        }
        if potential <= self.potential {
            let second = potential.max(self.second);
            return Best {
                minute,
                second,
                ..self
            };
        }
        Best {
            minute,
            task,
            potential,
            second: self.potential,
        }
    }

    fn is_as_good(self, other: Best) -> bool {
        self.task == other.task && self.potential == other.potential && self.second == other.second
    }
}

/// A task with its potential at the minute up to which it was gathered.
#[derive(Clone, Copy)]
struct Seen {
    task: u32,
    potential: i64,
}

impl Ahead {
    /// Forgets what was gathered.
    pub fn clear(&mut self) {
        self.list.clear();
    }

    fn last(&self) -> Best {
        match self.list.last() {
            Some(best) => *best,
            None => NOTHING,
        }
    }

    /// Puts an entry at the end, in the place of one of the same minute, where there is room and it tells something new.
    fn put(&mut self, best: Best) {
        if self.last().minute == best.minute {
            let _ = self.list.pop();
        }
        if self.list.len() < self.list.capacity() && !best.is_as_good(self.last()) {
            let _ = self.list.push(best);
        }
    }

    /// Takes the entries up to this minute out of the list, and puts them aside, the first minute first.
    fn set_aside(&mut self, aside: &mut Vec<Best>, minute: u32) {
        for _ in 0..self.list.len() {
            let best = self.last();
            if minute < best.minute {
                return;
            }
            let _ = self.list.pop();
            let _ = aside.push(best);
        }
    }

    /// Puts the entries from this minute on back, with what was seen of the task. The last one is what others have there.
    fn take_back(&mut self, aside: &mut Vec<Best>, seen: Seen, minute: u32, others: Best) -> Best {
        let mut others = others;
        for _ in 0..aside.len() {
            match aside.last() {
                Some(best) if minute <= best.minute => others = *best,
                _ => return others,
            }
            let _ = aside.pop();
            self.put(others.with(seen.task, seen.potential, others.minute));
        }
        others
    }

    /// Gathers the records of one more task, the last minute first.
    pub fn gather(&mut self, aside: &mut Vec<Best>, task: u32, records: &[Record]) {
        let Some(first) = records.first() else {
            return;
        };
        if self.list.is_empty() {
            let _ = self.list.push(NOTHING);
        }
        aside.clear();
        self.set_aside(aside, first.minute);
        let mut others = self.last();
        let mut seen = Seen { task, potential: 0 };
        for visit in records {
            others = self.take_back(aside, seen, visit.minute, others);
            seen.potential = visit.potential;
            self.put(others.with(task, visit.potential, visit.minute));
        }
        self.take_back(aside, seen, 0, others);
    }
}
