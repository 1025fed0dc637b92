//! A store of records in the sectors of a compound file.
//!
//! `file` says where in the lent bytes the records of the listed sectors stand, `claim` how a store is made of them, and
//! `store` has its calls.
#![tactic(auto)]

ghost use Rattle.std.specs.Prelude.{length};
ghost use Rattle.sector_store.specs.Sectors.{Laid};

use fields::version::Version;

pub mod claim;
mod file;
pub mod store;

/// Records in the sectors that a lent list names, sector `s` at `(s + 1)` times the length of a sector. The first
/// sectors of the list are in use, and growing takes the next. Version 4 keeps a count of the sectors in the header.
///
/// A store that is new holds nothing; `claim` looks the list over and takes its sectors up.
#[derive(Drop)]
pub struct SectorStore<'a> {
    version: Version,
    bytes: &'a mut [u8],
    sectors: &'a [u32],
    /// How many sectors are in use.
    used: u32,
    /// How many can be.
    room: u32,
    ghost laid: { Laid version (length bytes.now) sectors.now used room },
}

// A type of its own: its field is private to the store, so that nothing else makes one.
/// The slip of a growth.
pub struct SectorSlip(());
