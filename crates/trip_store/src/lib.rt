//! A store that is made to fail, over any store.
#![tactic(auto)]

ghost use Rattle.std.specs.Prelude.{◌≡◌, ◌-◌, ◌<◌, length};
ghost use Rattle.stores.specs.declared.fault.Layer.TheVariants.{Trip};
ghost use Rattle.stores.specs.Answers.{Inside, Reads, Writes, Grows, Posts};
ghost use Rattle.trip_store.specs.Trips.{TripsOr, Counts};

use fields::consts::DIR_ENTRY_LEN;
use fields::version::Version;
use stores::fault::{Fault, Layer};
use stores::span::Span;
use stores::store::RecordStore;

/// A store that faults from its n-th write on, growths and posts included. What is not there, and growing without room,
/// is no write.
#[derive(Drop)]
pub struct TripStore<S> {
    inner: S,
    /// How many writes still go through.
    left: u32,
}

impl<S> TripStore<S> {
    /// Faults from the write on that has this number, counted from 1.
    pub fn new(inner: S, nth: u32) -> TripStore<S>
        ensures inner { result.inner ≡ inner }
        ensures left { result.left ≡ nth - 1 }
    {
        TripStore {
            inner,
            left: nth.saturating_sub(1),
        }
    }

    // A twin by nature in each wrapper: each gives a field of its own type.
    /// The store below.
    pub fn into_inner(self) -> S
        ensures { result ≡ self.inner }
    {
        let TripStore { inner, .. } = self;
        inner
    }
}

// A call with clauses of its own repeats those of the trait, which they would replace.
impl<S: RecordStore> RecordStore for TripStore<S> {
    type Slip = S::Slip;

    ghost meaning = { λ s. S.meaning s.inner };

    ghost beside = { λ s. S.beside s.inner };

    ghost layer = { Trip };

    ghost faults = { TripsOr S.faults };

    // The four questions are the store's below, in every wrapper.
    fn version(&self) -> Version {
        self.inner.version()
    }

    fn record_count(&self) -> u32 {
        self.inner.record_count()
    }

    fn growth_size(&self) -> u32 {
        self.inner.growth_size()
    }

    fn growths_left(&self) -> u32 {
        self.inner.growths_left()
    }

    fn read(&mut self, number: u32, into: &mut [u8; DIR_ENTRY_LEN]) -> Result<(), Fault>
        ensures beside { S.beside self.new.inner ≡ S.beside self.old.inner }
        ensures kept { S.meaning self.new.inner ≡ S.meaning self.old.inner }
        ensures answer { Reads Trip (TripsOr S.faults) (S.meaning self.old.inner) number into.new result }
        ensures counts { self.new.left ≡ self.old.left }
    {
        Span::all_of(number).within(self.inner.record_count(), Layer::Trip)?;
        self.inner.read(number, into)
    }

    fn write(&mut self, number: u32, offset: u32, bytes: &[u8]) -> Result<(), Fault>
        ensures beside { S.beside self.new.inner ≡ S.beside self.old.inner }
        ensures answer { Writes Trip (TripsOr S.faults) (S.meaning self.old.inner)
            number offset bytes.now result (S.meaning self.new.inner) }
        ensures counts { Counts S.faults (Inside (S.meaning self.old.inner) number offset (length bytes.now))
            number offset result self.old.left self.new.left }
        ensures untouched { self.old.left ≡ 0 → self.new.inner ≡ self.old.inner }
    {
        let span = Span {
            id: number,
            offset,
            len: bytes.len(),
        };
        span.within(self.inner.record_count(), Layer::Trip)?;
        if self.left == 0 {
            return Err(Fault::tripped(Layer::Trip, number, offset));
        }
        self.left -= 1;
        self.inner.write(number, offset, bytes)
    }

    fn grow(&mut self) -> Result<Option<S::Slip>, Fault>
        ensures beside { S.beside self.new.inner ≡ S.beside self.old.inner }
        ensures answer { Grows (TripsOr S.faults) (S.meaning self.old.inner) result (S.meaning self.new.inner) }
        ensures counts { Counts S.faults (0 < (S.meaning self.old.inner).left)
            0 0 result self.old.left self.new.left }
        ensures untouched { self.old.left ≡ 0 → self.new.inner ≡ self.old.inner }
    {
        if self.inner.growths_left() == 0 {
            return Ok(None);
        }
        if self.left == 0 {
            return Err(Fault::tripped(Layer::Trip, 0, 0));
        }
        self.left -= 1;
        self.inner.grow()
    }

    /// The slip cannot be let go, so a post that trips is made below and then faults: the count is anyone's guess then.
    fn post(&mut self, slip: S::Slip) -> Result<(), Fault>
        ensures beside { S.beside self.new.inner ≡ S.beside self.old.inner }
        ensures answer { Posts (TripsOr S.faults) (S.meaning self.old.inner) result (S.meaning self.new.inner) }
        ensures counts { Counts S.faults (Unit {0}) 0 0 result self.old.left self.new.left }
    {
        let posted = self.inner.post(slip);
        if self.left == 0 {
            return Err(Fault::tripped(Layer::Trip, 0, 0));
        }
        self.left -= 1;
        posted
    }

    ghost whole = { λ s. S.whole s.inner };
}
