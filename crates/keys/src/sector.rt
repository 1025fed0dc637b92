ghost use Rattle.std.specs.Prelude.{Decides, ◌≡◌};
ghost use Rattle.std.proofs.Common.{rules};
ghost use Rattle.keys.specs.Keys.{same_sector, sector_hash};

use crate::hashing::{SEED, mix};
use crate::key::Key;

/// A sector's number, as a key.
#[derive(Clone, Copy, Debug, PartialEq, Eq)]
pub struct SectorNumber(pub u32);

impl Key for SectorNumber {
    ghost hashed = { sector_hash };

    ghost agrees = { Prim.search rules };

    fn hash(&self) -> u32 {
        mix(SEED, self.0)
    }
}

/// Two keys are equal exactly where they stand for one sector.
pub fn sectors_are_told(left: &SectorNumber, right: &SectorNumber)
    ensures tells { ⟦<SectorNumber as PartialEq>⟧.eq left.now right.now ≡ same_sector left.now right.now }
    ensures means { Decides (⟦<SectorNumber as PartialEq>⟧.eq left.now right.now) (left.now.0 ≡ right.now.0) }
{}
