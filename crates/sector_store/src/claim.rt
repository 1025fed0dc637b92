//! Making a store of a file's sectors.
ghost use Rattle.std.specs.Prelude.{◌≡◌, ℕ, ◌<◌, ◌≤◌, length, MatchOption, MatchResult};
ghost use Rattle.cells.specs.Maps.{Empty};
ghost use Rattle.sector_store.specs.Sectors.{Inside, room_for};
ghost use Rattle.sector_store.specs.Claims.{FirstOutside, Surveyed, Unfitting, Claimed, Unclaimed};

use crate::SectorStore;
use cells::cell::Cell;
use cells::repeat::find_repeat;
use fields::version::Version;
use keys::sector::SectorNumber;
use stores::store::MAX_RECORDS;
use stores::unfit::Unfit;

impl<'a> SectorStore<'a> {
    /// A store that holds nothing yet.
    pub fn new(version: Version, bytes: &'a mut [u8], sectors: &'a [u32]) -> SectorStore<'a>
        ensures lender { result.bytes.ghost_name ≡ bytes.entry.ghost_name }
        ensures bytes { result.bytes.now ≡ bytes.old }
        ensures list { result.sectors.now ≡ sectors.now }
        ensures version { result.version ≡ version }
        ensures empty { (result.used ≡ 0) × (result.room ≡ 0) }
    {
        // Zeros that stand for no missing value: a store that holds nothing and has no room is one.
        SectorStore {
            version,
            bytes,
            sectors,
            used: 0,
            room: 0,
        }
    }
}

impl SectorStore<'_> {
    // A step of its own: a store that is refused stays the caller's, who can claim again with more cells.
    /// Takes the listed sectors up, the first `used` of them as they stand. The cells are lent to find a sector that is
    /// listed twice, and empty afterwards. A refused claim leaves the store as it was.
    pub fn claim(&mut self, cells: &mut [Cell<SectorNumber>], used: u32) -> Result<(), Unfit>
        ensures empty { Empty cells.new }
        ensures lender { self.new.bytes.ghost_name ≡ self.old.bytes.ghost_name }
        ensures bytes { self.new.bytes.now ≡ self.old.bytes.now }
        ensures list { self.new.sectors.now ≡ self.old.sectors.now }
        ensures version { self.new.version ≡ self.old.version }
        ensures answer { MatchResult result
            (λ _. Claimed self.old.version (length self.old.bytes.now) self.old.sectors.now (length cells.old) used
            × (self.new.used ≡ used) × (self.new.room ≡ room_for self.old.version self.old.sectors.now))
            (λ e. Unclaimed self.old.version (length self.old.bytes.now) self.old.sectors.now (length cells.old) used e
            × (self.new.used ≡ self.old.used) × (self.new.room ≡ self.old.room)) }
    {
        let room = self.survey(cells)?;
        self.count_place()?;
        if room < used {
            return Err(Unfit::BadCount);
        }
        self.used = used;
        self.room = room;
        Ok(())
    }

    /// Looks the list over: how many of its sectors can be used, if none of them stands twice or outside the bytes.
    fn survey(&self, cells: &mut [Cell<SectorNumber>]) -> Result<u32, Unfit>
        ensures empty { Empty cells.new }
        ensures answer { MatchResult result
            (λ room. (room ≡ room_for self.now.version self.now.sectors.now)
            × (length self.now.sectors.now ≤ length cells.old)
            × Surveyed self.now.version (length self.now.bytes.now) self.now.sectors.now)
            (λ e. Unfitting self.now.version (length self.now.bytes.now) self.now.sectors.now (length cells.old) e) }
    {
        // No `map_err`: a closure would stand between the refusal and what is told of it.
        let Ok(repeated) = find_repeat(cells, self.sectors) else {
            return Err(Unfit::FewCells);
        };
        if let Some(place) = repeated {
            return Err(Unfit::Repeated(place));
        }
        if let Some(place) = self.first_outside() {
            return Err(Unfit::Outside(place));
        }
        Ok(self.usable())
    }

    /// How many of the listed sectors can be used: each of their records has to have a number.
    fn usable(&self) -> u32
        ensures { result ≡ room_for self.now.version self.now.sectors.now }
    {
        let most = MAX_RECORDS as usize / self.version.dir_entries_per_sector();
        self.sectors.len().min(most) as u32
    }

    /// The first place of the list whose sector lies outside the bytes.
    fn first_outside(&self) -> Option<usize>
        ensures { MatchOption result
            ((i : ℕ) → i < length self.now.sectors.now → Inside self.now.version (length self.now.bytes.now) self.now.sectors.now i)
            (λ i. FirstOutside self.now.version (length self.now.bytes.now) self.now.sectors.now i) }
    {
        let len = self.bytes.len();
        let sector_len = self.version.sector_len();
        self.sectors
            .iter()
            .position(|sector| len < (*sector as usize + 2) * sector_len)
    }
}
