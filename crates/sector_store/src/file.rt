//! Where in a compound file the records of its directory's sectors stand.
ghost use Rattle.std.specs.Prelude.{◌≡◌, ◌+◌, ◌*◌, ◌/◌, ◌<◌, ◌≤◌, length};
ghost use Rattle.stores.specs.Places.{record_at};
ghost use Rattle.fields.specs.Versions.{records_per_sector};
ghost use Rattle.sector_store.specs.Sectors.{place, start, filled, count_place};

use crate::SectorStore;
use fields::consts::DIR_ENTRY_LEN;
use fields::version::Version;
use stores::bytes::{copy_in, copy_out, freed_record};
use stores::unfit::Unfit;

/// Where the header keeps the count of the directory's sectors.
const COUNT_OFFSET: usize = 40;
/// Where the count ends, which has four bytes.
const COUNT_END: usize = COUNT_OFFSET + 4;

impl SectorStore<'_> {
    /// Where the header keeps a count, if the version wants one, and refused if the header is shorter.
    pub(crate) fn count_place(&self) -> Result<Option<usize>, Unfit>
        ensures { result ≡ count_place self.now.version (length self.now.bytes.now) }
    {
        match self.version {
            Version::V3 => Ok(None),
            Version::V4 if COUNT_END <= self.bytes.len() => Ok(Some(COUNT_OFFSET)),
            Version::V4 => Err(Unfit::BadCount),
        }
    }

    /// Where the sector at a place of the list begins.
    pub(crate) fn start(&self, index: usize) -> usize
        requires { index < length self.now.sectors.now }
        ensures { result ≡ start self.now.version self.now.sectors.now index }
    {
        (self.sectors[index] as usize + 1) * self.version.sector_len()
    }

    /// Where a record begins.
    pub(crate) fn place(&self, number: u32) -> usize
        requires { number / records_per_sector self.now.version < length self.now.sectors.now }
        ensures { result ≡ place self.now.version self.now.sectors.now number }
    {
        let per_sector = self.version.dir_entries_per_sector();
        let number = number as usize;
        self.start(number / per_sector) + number % per_sector * DIR_ENTRY_LEN
    }

    // In each store, since each has its own place; and by `&self`, since bytes that are lent through a `&mut self` are not
    // known to stand afterwards.
    /// Copies the record that begins at a place out.
    pub(crate) fn copy_record(&self, at: usize, into: &mut [u8; DIR_ENTRY_LEN])
        requires { at + 128 ≤ length self.now.bytes.now }
        ensures { into.new ≡ record_at self.now.bytes.now at }
    {
        copy_out(self.bytes, at, into);
    }
}

// A loop over the places: what is written through `chunks_exact_mut` is not known afterwards.
/// Writes so many freed records end to end, from a place on.
pub(crate) fn fill_with_freed(bytes: &mut [u8], at: usize, count: usize)
    requires { at + count * 128 ≤ length bytes.old }
    ensures { bytes.new ≡ filled bytes.old at count }
{
    let freed = freed_record();
    for i in 0..count {
        copy_in(bytes, at + i * DIR_ENTRY_LEN, &freed);
    }
}
