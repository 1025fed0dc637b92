//! The interface of a store of records.
ghost use Rattle.std.specs.Prelude.{◌≡◌, length};
ghost use Rattle.stores.specs.declared.fault.Layer.{Layer};
ghost use Rattle.stores.specs.declared.fault.Fault.{Fault};
ghost use Rattle.stores.specs.Meaning.{Meaning, Beside, Whole};
ghost use Rattle.stores.specs.Answers.{Reads, Writes, Grows, Posts};

use crate::fault::Fault;
use fields::consts::{DIR_ENTRY_LEN, MAX_REGULAR_STREAM_ID};
use fields::version::Version;

/// How many records have a number of their own.
pub const MAX_RECORDS: u32 = MAX_REGULAR_STREAM_ID + 1;

/// A store of records of 128 bytes, numbered from 0.
///
/// What it means is its version, its records, how many of them one growth adds, how many growths it can still make, and
/// the count of growths that it has posted, if it keeps one. A call changes of this exactly what its promise says; the
/// version and the size of a growth never change.
pub trait RecordStore {
    /// The slip that a growth hands out and only `post` takes back. A store's slip has no `Drop`, so that code in which
    /// a growth's post can be forgotten, or done twice, is no program.
    type Slip;

    /// What the store means.
    ghost meaning: { Self → Meaning };

    /// What lies beside the store's meaning, in the memory that it was lent; no call changes it.
    ghost beside: { Self → Beside };

    /// The layer that names what is not there.
    ghost layer: { Layer };

    /// The faults that a call in range can meet: for a store that never faults there, none.
    ghost faults: { Fault → Type 0 };

    /// The version of the file.
    fn version(&self) -> Version
        ensures { result ≡ (meaning self.now).version };

    /// How many records there are.
    fn record_count(&self) -> u32
        ensures { result ≡ length (meaning self.now).records };

    /// How many records one growth adds.
    fn growth_size(&self) -> u32
        ensures { result ≡ (meaning self.now).growth };

    /// How many growths can still be made.
    fn growths_left(&self) -> u32
        ensures { result ≡ (meaning self.now).left };

    /// Reads a record. On a fault the caller's bytes may hold anything.
    fn read(&mut self, number: u32, into: &mut [u8; DIR_ENTRY_LEN]) -> Result<(), Fault>
        ensures beside { beside self.new ≡ beside self.old }
        ensures kept { meaning self.new ≡ meaning self.old }
        ensures answer { Reads layer faults (meaning self.old) number into.new result };

    /// Writes the bytes into one record, from the offset on. On a fault that record alone may hold anything.
    fn write(&mut self, number: u32, offset: u32, bytes: &[u8]) -> Result<(), Fault>
        ensures beside { beside self.new ≡ beside self.old }
        ensures answer { Writes layer faults (meaning self.old) number offset bytes.now result (meaning self.new) };

    /// Adds one growth of freed records and hands out its slip, which is owed to `post`; or nothing, where no growth is
    /// left, and nothing was changed. On a fault the growths left and whatever lies beyond the old records may be
    /// anything.
    fn grow(&mut self) -> Result<Option<Self::Slip>, Fault>
        ensures beside { beside self.new ≡ beside self.old }
        ensures answer { Grows faults (meaning self.old) result (meaning self.new) };

    /// Takes a growth's slip back and sets the count to the growths held, where one is kept. On a fault the count may be
    /// anything; the slip is spent all the same.
    fn post(&mut self, slip: Self::Slip) -> Result<(), Fault>
        ensures beside { beside self.new ≡ beside self.old }
        ensures answer { Posts faults (meaning self.old) result (meaning self.new) };

    /// What holds of every store's sizes.
    ghost whole: { (s : Self) → Whole (meaning s) };
}
