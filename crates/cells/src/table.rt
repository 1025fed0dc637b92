ghost use Rattle.cells.specs.Rules.{Rules};

use crate::cell::Cell;
use crate::chain;
use keys::key::Key;

mod edits;

/// A finite map from keys to numbers, in lent cells. Its keys are in the first `count` cells.
#[derive(Drop)]
pub struct Table<'a, K: Key> {
    cells: &'a mut [Cell<K>],
    // Fixed memory: the cells are lent, so the number of keys stands beside them.
    count: usize,
    ghost sound: { ∥ Rules K.hashed K.eq cells.now count ∥₁ },
}

impl<'a, K: Key + Copy> Table<'a, K> {
    // Here and not above, since these words name the table.
    ghost use Rattle.std.specs.Prelude.{◌≡◌};
    ghost use Rattle.cells.specs.Maps.{cells_of, SameCells, Fresh, Empty};

    /// A table without keys; the cells are emptied.
    pub fn new(cells: &'a mut [Cell<K>]) -> Table<'a, K>
        ensures cells { SameCells cells.entry result.cells }
        ensures fresh { Fresh result }
        ensures empty { Empty (cells_of result) }
    {
        cells.fill(Cell::empty());
        Table { cells, count: 0 }
    }
}

impl<K: Key + Copy> Table<'_, K> {
    ghost use Rattle.std.specs.Prelude.{◌≡◌, ◌≤◌, MatchOption};
    ghost use Rattle.cells.specs.Chains.{Holds, Lacks};
    ghost use Rattle.cells.specs.Maps.{cells_of, size_of, lookup};

    /// How many keys there are.
    pub fn len(&self) -> usize
        ensures count { result ≡ self.now.count }
        ensures within { result ≤ size_of self.now }
    {
        self.count
    }

    /// How many keys there can be.
    pub fn capacity(&self) -> usize
        ensures { result ≡ size_of self.now }
    {
        self.cells.len()
    }

    /// The value under a key.
    pub fn find(&self, key: &K) -> Option<u32>
        ensures { result ≡ lookup self.now key.now }
    {
        let at = self.seek(key)?;
        chain::value_at(self.cells, at)
    }

    fn seek(&self, key: &K) -> Option<usize>
        ensures { MatchOption result
            (Lacks K.eq (cells_of self.now) key.now)
            (λ i. Holds K.eq (cells_of self.now) key.now i) }
    {
        chain::seek(self.cells, key)
    }
}
