//! A store that keeps copies of records that were read, over any store.
#![tactic(auto)]

ghost use Rattle.std.specs.Prelude.{◌≡◌, [], MatchResult};
ghost use Rattle.stores.specs.declared.fault.Layer.TheVariants.{Cache};
ghost use Rattle.stores.specs.Meaning.{with_bytes};
ghost use Rattle.stores.specs.Answers.{Reads, Writes};
ghost use Rattle.cache_store.specs.Copies.{laid, Remembers};
ghost use Rattle.cache_store.specs.Wholes.{whole_laid};

use crate::copies::Copies;
use fields::consts::DIR_ENTRY_LEN;
use fields::version::Version;
use stores::fault::{Fault, Layer};
use stores::span::Span;
use stores::store::RecordStore;

mod copied;
mod copies;

/// A store that writes through and keeps the first sixteen records that are read. It means the store below with those
/// laid over it.
#[derive(Drop)]
pub struct CacheStore<S> {
    inner: S,
    copies: Copies,
}

impl<S> CacheStore<S> {
    /// A cache that keeps nothing yet.
    pub fn new(inner: S) -> CacheStore<S>
        ensures inner { result.inner ≡ inner }
        ensures none { result.copies.kept.items ≡ [] }
    {
        CacheStore {
            inner,
            copies: Copies::none(),
        }
    }

    // A twin by nature in each wrapper: each gives a field of its own type.
    /// The store below.
    pub fn into_inner(self) -> S
        ensures { result ≡ self.inner }
    {
        let CacheStore { inner, .. } = self;
        inner
    }
}

// A call with clauses of its own repeats those of the trait, which they would replace.
impl<S: RecordStore> RecordStore for CacheStore<S> {
    type Slip = S::Slip;

    ghost meaning = { λ s. laid s.copies.kept.items (S.meaning s.inner) };

    ghost beside = { λ s. S.beside s.inner };

    ghost layer = { Cache };

    ghost faults = { S.faults };

    // The four questions are the store's below, in every wrapper.
    fn version(&self) -> Version {
        self.inner.version()
    }

    fn record_count(&self) -> u32 {
        self.inner.record_count()
    }

    fn growth_size(&self) -> u32 {
        self.inner.growth_size()
    }

    fn growths_left(&self) -> u32 {
        self.inner.growths_left()
    }

    fn read(&mut self, number: u32, into: &mut [u8; DIR_ENTRY_LEN]) -> Result<(), Fault>
        ensures beside { S.beside self.new.inner ≡ S.beside self.old.inner }
        ensures kept { laid self.new.copies.kept.items (S.meaning self.new.inner) ≡ laid self.old.copies.kept.items (S.meaning self.old.inner) }
        ensures answer { Reads Cache S.faults (laid self.old.copies.kept.items (S.meaning self.old.inner)) number into.new result }
        ensures below { S.meaning self.new.inner ≡ S.meaning self.old.inner }
        ensures remembers { MatchResult result
            (λ _. Remembers self.old.copies.kept.items number into.new self.new.copies.kept.items)
            (λ _. self.new.copies ≡ self.old.copies) }
    {
        Span::all_of(number).within(self.inner.record_count(), Layer::Cache)?;
        if let Some(place) = self.copies.place_of(number) {
            self.copies.copy_record(place, into);
            return Ok(());
        }
        self.inner.read(number, into)?;
        self.copies.keep(number, into);
        Ok(())
    }

    fn write(&mut self, number: u32, offset: u32, bytes: &[u8]) -> Result<(), Fault>
        ensures beside { S.beside self.new.inner ≡ S.beside self.old.inner }
        ensures answer { Writes Cache S.faults (laid self.old.copies.kept.items (S.meaning self.old.inner))
            number offset bytes.now result (laid self.new.copies.kept.items (S.meaning self.new.inner)) }
        ensures through { MatchResult result
            (λ _. S.meaning self.new.inner ≡ with_bytes (S.meaning self.old.inner) number offset bytes.now)
            (λ _. self.new.copies ≡ self.old.copies) }
    {
        let span = Span {
            id: number,
            offset,
            len: bytes.len(),
        };
        span.within(self.inner.record_count(), Layer::Cache)?;
        self.inner.write(number, offset, bytes)?;
        if let Some(place) = self.copies.place_of(number) {
            self.copies.patch(place, offset, bytes);
        }
        Ok(())
    }

    fn grow(&mut self) -> Result<Option<S::Slip>, Fault> {
        self.copies.forget_beyond(self.inner.record_count());
        self.inner.grow()
    }

    fn post(&mut self, slip: S::Slip) -> Result<(), Fault> {
        self.inner.post(slip)
    }

    ghost whole = { λ s. whole_laid s.copies.kept.items (S.meaning s.inner) s.copies.sized (S.whole s.inner) };
}
