ghost use Rattle.std.specs.Prelude.{◌≡◌, MatchResult};
ghost use Rattle.cells.specs.Maps.{cells_of, lookup, Drops, Fresh, without_key, Inserted, Refused, Empty, SameCells};

use super::Table;
use crate::cell::{Cell, Entry};
use crate::chain;
use crate::refusal::Full;
use keys::key::Key;

impl<K: Key + Copy> Table<'_, K> {
    /// Puts a value under a key. A key that is there gets the new value.
    pub fn insert(&mut self, key: K, value: u32) -> Result<(), Full>
        ensures cells { SameCells self.old.cells self.new.cells }
        ensures answer { MatchResult result
            (λ _. Inserted self.old self.new key value)
            (λ _. Refused self.old self.new key) }
    {
        match self.seek(&key) {
            Some(at) => chain::replace(self.cells, at, value),
            None => {
                let free = self.count;
                if free == self.cells.len() {
                    return Err(Full);
                }
                chain::put(self.cells, free, Entry { key, value });
                self.count = free + 1;
            }
        }
        Ok(())
    }

    /// Takes a key out, and answers the value that was under it.
    pub fn remove(&mut self, key: &K) -> Option<u32>
        ensures cells { SameCells self.old.cells self.new.cells }
        ensures answer { result ≡ lookup self.old key.now }
        ensures drops { Drops K.eq (lookup self.old) (lookup self.new) key.now }
        ensures counts { self.new.count ≡ without_key (lookup self.old key.now) self.old.count }
    {
        let at = self.seek(key)?;
        let last = self.count - 1;
        let gone = chain::take_out(self.cells, at, last);
        self.count = last;
        gone.map(|entry| entry.value)
    }

    /// Takes every key out.
    pub fn clear(&mut self)
        ensures cells { SameCells self.old.cells self.new.cells }
        ensures fresh { Fresh self.new }
        ensures empty { Empty (cells_of self.new) }
    {
        self.cells.fill(Cell::empty());
        self.count = 0;
    }
}
