use crate::count::Count;
use crate::random::Random;
use crate::reach::key_of;
use cells::cell::Cell;
use cells::table::Table;
use keys::child::ChildKey;
use std::alloc::{AllocError, Global};
use std::collections::BTreeMap;
use std::fmt;

/// What the calls of a run met. `wrong` counts the answers that differ from the map's.
#[derive(Clone, Copy, Default)]
pub struct Tally {
    inserted: Count,
    refused: Count,
    found: Count,
    missed: Count,
    removed: Count,
    absent: Count,
    wrong: Count,
}

impl fmt::Display for Tally {
    fn fmt<W: fmt::Write>(&self, f: &mut fmt::Formatter<W>) -> fmt::Result {
        let Tally {
            inserted,
            refused,
            found,
            missed,
            removed,
            absent,
            wrong,
        } = *self;
        write!(
            f,
            "  insert: {inserted} accepted, {refused} refused; find: {found} found, {missed} not; "
        )?;
        write!(
            f,
            "remove: {removed} removed, {absent} not there; wrong answers: {wrong}"
        )
    }
}

/// A table and a map of the standard library, to which the same calls are made.
#[derive(Drop)]
struct Trial<'a> {
    table: Table<'a, ChildKey>,
    map: BTreeMap<u32, u32>,
    tally: Tally,
}

impl Trial<'_> {
    /// One insertion: refused exactly where the map lacks the key and the cells are all taken.
    fn insert(&mut self, key: u32, value: u32) -> Result<(), AllocError> {
        let room = self.map.len() < self.table.capacity() || self.map.contains_key(&key);
        let accepted = self.table.insert(key_of(key), value).is_ok();
        self.tally.inserted.add_if(accepted);
        self.tally.refused.add_if(!accepted);
        self.tally.wrong.add_if(accepted != room);
        if accepted {
            self.map.insert(key, value)?;
        }
        Ok(())
    }

    fn find(&mut self, key: u32) {
        let answer = self.table.find(&key_of(key));
        self.tally.found.add_if(answer.is_some());
        self.tally.missed.add_if(answer.is_none());
        self.tally
            .wrong
            .add_if(answer != self.map.get(&key).copied());
    }

    fn remove(&mut self, key: u32) {
        let answer = self.table.remove(&key_of(key));
        self.tally.removed.add_if(answer.is_some());
        self.tally.absent.add_if(answer.is_none());
        self.tally.wrong.add_if(answer != self.map.remove(&key));
    }

    /// One call of a kind that `pick` chooses: half of them are insertions, so that the table fills.
    fn call(&mut self, pick: u32, key: u32, value: u32) -> Result<(), AllocError> {
        // A draw, and not a kind that anyone else names.
        match pick % 4 {
            0 => self.find(key),
            1 => self.remove(key),
            _ => self.insert(key, value)?,
        }
        self.tally.wrong.add_if(self.table.len() != self.map.len());
        Ok(())
    }
}

/// 10,000 calls with keys chosen from `keys`, in `size` cells.
pub fn run(heap: Global, keys: u32, size: usize) -> Result<Tally, AllocError> {
    let mut cells = vec![in heap; Cell::empty(); size]?;
    let mut trial = Trial {
        table: Table::new(cells.as_mut_slice()),
        map: BTreeMap::new(heap),
        tally: Tally::default(),
    };
    let mut random = Random::new();
    for value in 0..10000 {
        let key = random.draw() % keys.max(1);
        let pick = random.draw();
        trial.call(pick, key, value)?;
    }
    Ok(trial.tally)
}
