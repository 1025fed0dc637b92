use crate::count::Count;
use cells::cell::Cell;
use cells::table::Table;
use keys::child::ChildKey;
use keys::key::Key;
use names::key::NameKey;
use std::alloc::{AllocError, Global};
use std::fmt;

/// The n-th key: a name of eight digits below one of seven storages.
pub fn key_of(n: u32) -> ChildKey {
    let mut codes = [0; 31];
    let mut rest = n;
    for code in &mut codes[..8] {
        *code = u32::from(b'0') + rest % 10;
        rest /= 10;
    }
    ChildKey {
        parent: n % 7,
        name: NameKey {
            unit_count: 8,
            code_count: 8,
            codes,
        },
    }
}

/// How many cells the searches of a kind look at, reckoned from the hashes.
#[derive(Clone, Copy, Default)]
pub struct Reach {
    searches: Count,
    total: Count,
    longest: u32,
}

impl Reach {
    fn add(&mut self, looked_at: u32) {
        self.searches.add(1);
        self.total.add(looked_at);
        self.longest = self.longest.max(looked_at);
    }
}

impl fmt::Display for Reach {
    fn fmt<W: fmt::Write>(&self, f: &mut fmt::Formatter<W>) -> fmt::Result {
        let mean = u64::from(self.total.value()) * 100 / u64::from(self.searches.value().max(1));
        let whole = mean / 100;
        let hundredths = mean % 100;
        let longest = self.longest;
        write!(f, "mean {whole}.{hundredths:02}, longest {longest}")
    }
}

/// The searches for keys that are there and for keys that are not, and how many answers were wrong.
#[derive(Clone, Copy, Default)]
pub struct Measured {
    hits: Reach,
    misses: Reach,
    wrong: Count,
}

impl fmt::Display for Measured {
    fn fmt<W: fmt::Write>(&self, f: &mut fmt::Formatter<W>) -> fmt::Result {
        let Measured {
            hits,
            misses,
            wrong,
        } = *self;
        write!(
            f,
            "  hits: {hits}; misses: {misses}; wrong answers: {wrong}"
        )
    }
}

/// A table, how many keys each of its chains has, and what was measured.
#[derive(Drop)]
struct Search<'a> {
    table: Table<'a, ChildKey>,
    chains: Vec<u32>,
    measured: Measured,
}

impl Search<'_> {
    /// The chain that a key belongs to.
    fn chain_of(&self, key: &ChildKey) -> usize {
        key.hash() as usize % self.chains.len().max(1)
    }

    /// Puts the keys into the table. A key's chain holds the keys of its bucket in the order in which they came, so its
    /// place there is how many cells a search for it looks at.
    fn fill(&mut self, count: u32) {
        for n in 0..count {
            let key = key_of(n);
            let chain = self.chain_of(&key);
            if let Some(length) = self.chains.get_mut(chain) {
                *length = length.saturating_add(1);
                self.measured.hits.add(*length);
            }
            self.measured
                .wrong
                .add_if(self.table.insert(key, n).is_err());
        }
    }

    /// Searches for the keys that are there, and for the next ones, which are not. A search for a key that is not there
    /// looks at the whole chain.
    fn search_all(&mut self, count: u32) {
        for n in 0..count {
            self.measured
                .wrong
                .add_if(self.table.find(&key_of(n)) != Some(n));
            let other = key_of(n.saturating_add(count));
            self.measured
                .wrong
                .add_if(self.table.find(&other).is_some());
            let chain = self.chain_of(&other);
            if let Some(length) = self.chains.get(chain) {
                self.measured.misses.add(*length);
            }
        }
    }
}

/// Fills a table to its last cell, then searches for each key and for as many others.
pub fn measure(heap: Global, count: u32) -> Result<Measured, AllocError> {
    let size = count as usize;
    let mut cells = vec![in heap; Cell::empty(); size]?;
    let mut search = Search {
        table: Table::new(cells.as_mut_slice()),
        chains: vec![in heap; 0; size]?,
        measured: Measured::default(),
    };
    search.fill(count);
    search.search_all(count);
    Ok(search.measured)
}
