//! Copies of records.
ghost use Rattle.std.specs.Prelude.{◌≡◌, ℕ, ◌+◌, ◌<◌, ◌≤◌, [], length, map, if◌then◌else◌, nat_lt, slice_index_or};
ghost use Rattle.std.specs.List.{position};
ghost use Rattle.cache_store.specs.Copies.{blank, Sized, is_of, forgotten, added, patched};

use crate::copied::Copied;
use arrayvec::ArrayVec;
use fields::consts::DIR_ENTRY_LEN;

/// How many copies there can be.
const MAX_COPIES: usize = 16;

/// Copies of up to sixteen records, in the order in which they came.
#[derive(Drop)]
pub(crate) struct Copies {
    kept: ArrayVec<Copied, MAX_COPIES>,
    ghost sized: { Sized kept.items },
}

impl Copies {
    /// No copies yet.
    pub(crate) fn none() -> Copies
        ensures { result.kept.items ≡ [] }
    {
        Copies {
            kept: ArrayVec::new(),
        }
    }

    /// The place of the first copy of a record.
    pub(crate) fn place_of(&self, id: u32) -> Option<usize>
        ensures { result ≡ position (is_of id) self.now.kept.items }
    {
        self.kept.iter().position(|copied| copied.is_of(id))
    }

    /// Copies the copy at a place out.
    pub(crate) fn copy_record(&self, place: usize, into: &mut [u8; DIR_ENTRY_LEN])
        requires { place < length self.now.kept.items }
        ensures { into.new ≡ (slice_index_or self.now.kept.items place blank).bytes }
    {
        into.copy_from_slice(&self.kept[place].bytes);
    }

    /// Keeps a copy, where there is room for one more.
    pub(crate) fn keep(&mut self, id: u32, bytes: &[u8; DIR_ENTRY_LEN])
        ensures { self.new.kept.items ≡ (if nat_lt (length self.old.kept.items) 16 then added self.old.kept.items id bytes.now else self.old.kept.items) }
    {
        if !self.kept.is_full() {
            self.kept.push(Copied::of(id, bytes));
        }
    }

    /// Writes bytes into the copy at a place.
    pub(crate) fn patch(&mut self, place: usize, offset: u32, bytes: &[u8])
        requires place_bound { place < length self.old.kept.items }
        requires bytes_bound { offset + length bytes.now ≤ 128 }
        ensures { self.new.kept.items ≡ patched self.old.kept.items place offset bytes.now }
    {
        self.kept[place].patch(offset, bytes);
    }

    /// Forgets the copies of records that are not there. They keep their places.
    pub(crate) fn forget_beyond(&mut self, count: u32)
        ensures { self.new.kept.items ≡ map (forgotten count) self.old.kept.items }
    {
        forget_each(&mut self.kept, count);
    }
}

// A function of the slice: what a loop writes through a list's own iterator is not known afterwards.
/// Forgets the copies of records that are not there.
fn forget_each(copies: &mut [Copied], count: u32)
    ensures { copies.new ≡ map (forgotten count) copies.old }
{
    for copied in copies.iter_mut() {
        copied.forget_beyond(count);
    }
}
