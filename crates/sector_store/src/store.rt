//! The calls of a store of sectors.
ghost use Rattle.std.specs.Prelude.{◌≡◌};
ghost use Rattle.stores.specs.declared.fault.Layer.TheVariants.{Sector};
ghost use Rattle.sector_store.specs.Sectors.{sectored, sector_beside};
ghost use Rattle.sector_store.specs.Wholes.{whole_sectored};

use crate::file::fill_with_freed;
use crate::{SectorSlip, SectorStore};
use fields::consts::DIR_ENTRY_LEN;
use fields::version::Version;
use stores::bytes::copy_in;
use stores::fault::{Fault, Layer};
use stores::span::Span;
use stores::store::RecordStore;

impl RecordStore for SectorStore<'_> {
    type Slip = SectorSlip;

    ghost meaning = { λ s. sectored s.version s.bytes.now s.sectors.now s.used s.room };

    ghost beside = { λ s. sector_beside s.bytes.ghost_name s.version s.bytes.now s.sectors.now };

    ghost layer = { Sector };

    ghost faults = { λ _. ⊥ };

    fn version(&self) -> Version {
        self.version
    }

    fn record_count(&self) -> u32 {
        self.used * self.growth_size()
    }

    fn growth_size(&self) -> u32 {
        self.version.dir_entries_per_sector() as u32
    }

    fn growths_left(&self) -> u32 {
        self.room - self.used
    }

    fn read(&mut self, number: u32, into: &mut [u8; DIR_ENTRY_LEN]) -> Result<(), Fault> {
        Span::all_of(number).within(self.record_count(), Layer::Sector)?;
        let at = self.place(number);
        self.copy_record(at, into);
        Ok(())
    }

    fn write(&mut self, number: u32, offset: u32, bytes: &[u8]) -> Result<(), Fault> {
        let span = Span {
            id: number,
            offset,
            len: bytes.len(),
        };
        span.within(self.record_count(), Layer::Sector)?;
        let at = self.place(number) + offset as usize;
        copy_in(self.bytes, at, bytes);
        Ok(())
    }

    fn grow(&mut self) -> Result<Option<SectorSlip>, Fault> {
        if self.growths_left() == 0 {
            return Ok(None);
        }
        let used = self.used as usize;
        let at = self.start(used);
        let count = self.version.dir_entries_per_sector();
        fill_with_freed(self.bytes, at, count);
        self.used += 1;
        Ok(Some(SectorSlip(())))
    }

    fn post(&mut self, slip: SectorSlip) -> Result<(), Fault> {
        let SectorSlip(()) = slip;
        if let Ok(Some(place)) = self.count_place() {
            let count = self.used.to_le_bytes();
            copy_in(self.bytes, place, &count);
        }
        Ok(())
    }

    ghost whole = { λ s. whole_sectored s.version s.bytes.now s.sectors.now s.used s.room s.laid };
}
