//! A store of records end to end in lent bytes.
#![tactic(auto)]

ghost use Rattle.std.specs.Prelude.{◌≡◌, ◌<◌, ◌≤◌, MatchResult};
ghost use Rattle.stores.specs.declared.fault.Layer.TheVariants.{Flat};
ghost use Rattle.stores.specs.Places.{record_at};
ghost use Rattle.flat_store.specs.Flat.{place, room, flat, flat_beside};
ghost use Rattle.flat_store.specs.Wholes.{whole};

use fields::consts::DIR_ENTRY_LEN;
use fields::version::Version;
use stores::bytes::{copy_in, copy_out, freed_record};
use stores::fault::{Fault, Layer};
use stores::span::Span;
use stores::store::{MAX_RECORDS, RecordStore};
use stores::unfit::Unfit;

/// Records end to end in lent bytes. It grows by one record while the bytes have room, and keeps no count.
#[derive(Drop)]
pub struct FlatStore<'a> {
    bytes: &'a mut [u8],
    version: Version,
    count: u32,
    ghost fits: { count ≤ room bytes.now },
}

// A type of its own: its field is private to the store, so that nothing else makes one.
/// The slip of a growth.
pub struct FlatSlip(());

impl<'a> FlatStore<'a> {
    /// A store of the first `count` records in the bytes.
    pub fn new(version: Version, bytes: &'a mut [u8], count: u32) -> Result<FlatStore<'a>, Unfit>
        ensures { MatchResult result
            (λ s. (count ≤ room bytes.old)
            × (s.bytes.ghost_name ≡ bytes.entry.ghost_name) × (s.bytes.now ≡ bytes.old)
            × (s.version ≡ version) × (s.count ≡ count))
            (λ e. (room bytes.old < count) × (e ≡ Unfit.BadCount)) }
    {
        if room_in(bytes) < count {
            return Err(Unfit::BadCount);
        }
        Ok(FlatStore {
            bytes,
            version,
            count,
        })
    }
}

impl FlatStore<'_> {
    // In each store, since each has its own place; and by `&self`, since bytes that are lent through a `&mut self` are not
    // known to stand afterwards.
    /// Copies a record out.
    fn copy_record(&self, number: u32, into: &mut [u8; DIR_ENTRY_LEN])
        requires { number < self.now.count }
        ensures { into.new ≡ record_at self.now.bytes.now (place number) }
    {
        copy_out(self.bytes, number as usize * DIR_ENTRY_LEN, into);
    }
}

/// How many records the bytes have room for, as far as there are numbers for them.
fn room_in(bytes: &[u8]) -> u32
    ensures { result ≡ room bytes.now }
{
    (bytes.len() / DIR_ENTRY_LEN).min(MAX_RECORDS as usize) as u32
}

impl RecordStore for FlatStore<'_> {
    type Slip = FlatSlip;

    ghost meaning = { λ s. flat s.version s.bytes.now s.count };

    ghost beside = { λ s. flat_beside s.bytes.ghost_name s.bytes.now };

    ghost layer = { Flat };

    ghost faults = { λ _. ⊥ };

    fn version(&self) -> Version {
        self.version
    }

    fn record_count(&self) -> u32 {
        self.count
    }

    fn growth_size(&self) -> u32 {
        1
    }

    fn growths_left(&self) -> u32 {
        room_in(self.bytes) - self.count
    }

    fn read(&mut self, number: u32, into: &mut [u8; DIR_ENTRY_LEN]) -> Result<(), Fault> {
        Span::all_of(number).within(self.count, Layer::Flat)?;
        self.copy_record(number, into);
        Ok(())
    }

    fn write(&mut self, number: u32, offset: u32, bytes: &[u8]) -> Result<(), Fault> {
        let span = Span {
            id: number,
            offset,
            len: bytes.len(),
        };
        span.within(self.count, Layer::Flat)?;
        let at = number as usize * DIR_ENTRY_LEN + offset as usize;
        copy_in(self.bytes, at, bytes);
        Ok(())
    }

    fn grow(&mut self) -> Result<Option<FlatSlip>, Fault> {
        if self.growths_left() == 0 {
            return Ok(None);
        }
        let at = self.count as usize * DIR_ENTRY_LEN;
        copy_in(self.bytes, at, &freed_record());
        self.count += 1;
        Ok(Some(FlatSlip(())))
    }

    fn post(&mut self, slip: FlatSlip) -> Result<(), Fault> {
        let FlatSlip(()) = slip;
        Ok(())
    }

    ghost whole = { λ s. whole s.version s.bytes.now s.count s.fits };
}
