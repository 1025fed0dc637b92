//! The copy of a record.
ghost use Rattle.std.specs.Prelude.{◌≡◌, ◌+◌, ◌≤◌, length, Some};
ghost use Rattle.cache_store.specs.Copies.{is_of, forgotten, copy_of, rewritten};

use fields::consts::DIR_ENTRY_LEN;
use stores::bytes::copy_in;

/// The copy of a record, or what is left of one that was forgotten.
#[derive(Clone, Copy, Default)]
pub(crate) struct Copied {
    /// The record's number: of a copy that was forgotten, none.
    id: Option<u32>,
    pub(crate) bytes: [u8; DIR_ENTRY_LEN],
}

impl Copied {
    /// A copy of a record.
    pub(crate) fn of(id: u32, bytes: &[u8; DIR_ENTRY_LEN]) -> Copied
        ensures { result ≡ copy_of id bytes.now }
    {
        Copied {
            id: Some(id),
            bytes: *bytes,
        }
    }

    /// Whether this is a copy of the record with that number.
    pub(crate) fn is_of(&self, id: u32) -> bool
        ensures { result ≡ is_of id self.now }
    {
        self.id == Some(id)
    }

    /// Writes bytes into the copy.
    pub(crate) fn patch(&mut self, offset: u32, bytes: &[u8])
        requires { offset + length bytes.now ≤ 128 }
        ensures { self.new ≡ rewritten self.old offset bytes.now }
    {
        copy_in(&mut self.bytes, offset as usize, bytes);
    }

    /// Forgets of which record this is a copy, where that has no number below the count.
    pub(crate) fn forget_beyond(&mut self, count: u32)
        ensures { self.new ≡ forgotten count self.old }
    {
        self.id = self.id.filter(|id| *id < count);
    }
}
