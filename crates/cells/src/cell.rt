ghost use Rattle.std.specs.Prelude.{◌≡◌};
ghost use Rattle.cells.specs.Chains.{emptied};

use crate::link::CellLink;

/// A key and the value under it.
#[derive(Clone, Copy)]
pub(crate) struct Entry<K> {
    pub(crate) key: K,
    pub(crate) value: u32,
}

/// One cell of a table. It holds an entry or none, and, apart from that, two links by cell number.
#[derive(Clone, Copy)]
pub struct Cell<K> {
    pub(crate) entry: Option<Entry<K>>,
    // Fixed memory: the cells are lent, so a chain is linked by their numbers.
    /// The next cell of this entry's chain.
    pub(crate) next: CellLink,
    /// The first cell of the chain of the bucket that has this cell's number.
    pub(crate) head: CellLink,
}

impl<K> Cell<K> {
    /// A cell that holds nothing.
    pub fn empty() -> Cell<K>
        ensures { result ≡ emptied }
    {
        Cell {
            entry: None,
            next: CellLink::none(),
            head: CellLink::none(),
        }
    }
}
