//! The bytes of one record that a call asks for.
ghost use Rattle.std.specs.Prelude.{◌≡◌, ◌+◌, ◌<◌, ◌≤◌, MatchResult};
ghost use Rattle.stores.specs.Faults.{missing, all_of};

use crate::fault::{Fault, Layer};
use fields::consts::DIR_ENTRY_LEN;

// Made by the names of its fields: all three are numbers, which the arguments of a call could mix up.
/// So many bytes of a record, from an offset on.
#[derive(Debug, Clone, Copy, PartialEq, Eq)]
pub struct Span {
    /// The record's number.
    pub id: u32,
    /// The offset in it at which they begin.
    pub offset: u32,
    /// How many there are.
    pub len: usize,
}

impl Span {
    /// All bytes of a record.
    pub fn all_of(id: u32) -> Span
        ensures { result ≡ all_of id }
    {
        Span {
            id,
            offset: 0,
            len: DIR_ENTRY_LEN,
        }
    }

    /// Names what is not there: a record of a store that has `count` of them, or bytes beyond the record's end.
    pub fn within(self, count: u32, layer: Layer) -> Result<(), Fault>
        ensures { MatchResult result
            (λ _. (self.id < count) × (self.offset + self.len ≤ 128))
            (λ f. (f ≡ missing layer self.id self.offset) × ((self.id < count) × (self.offset + self.len ≤ 128) → ⊥)) }
    {
        let Span { id, offset, len } = self;
        if id < count && len <= DIR_ENTRY_LEN && offset as usize <= DIR_ENTRY_LEN - len {
            return Ok(());
        }
        Err(Fault::not_there(layer, id, offset))
    }
}
