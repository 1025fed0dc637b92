//! The version of a compound file.
ghost use Rattle.std.specs.Prelude.{◌≡◌, ok_or};
ghost use Rattle.fields.specs.declared.version.UnknownVersion.{UnknownVersion};
ghost use Rattle.fields.specs.Versions.{version_number, version_of, sector_length, records_per_sector, length_mask};

use crate::consts::DIR_ENTRY_LEN;

/// The version of a compound file.
#[derive(Debug, Clone, Copy, PartialEq, Eq)]
pub enum Version {
    /// Version 3, with sectors of 512 bytes.
    V3,
    /// Version 4, with sectors of 4,096 bytes.
    V4,
}

/// A number that stands for no version.
#[derive(Debug, Clone, Copy, PartialEq, Eq)]
pub struct UnknownVersion(pub u16);

impl Version {
    // One table for each number, under the line that gives its unit.
    /// The length of a sector, in bytes.
    pub fn sector_len(self) -> usize
        ensures { result ≡ sector_length self }
    {
        match self {
            Version::V3 => 512,
            Version::V4 => 4096,
        }
    }

    /// How many records a sector holds.
    pub fn dir_entries_per_sector(self) -> usize
        ensures { result ≡ records_per_sector self }
    {
        self.sector_len() / DIR_ENTRY_LEN
    }

    /// The bits of a stream's length that count: version 3 has 32 of them.
    pub fn stream_len_mask(self) -> u64
        ensures { result ≡ length_mask self }
    {
        match self {
            Version::V3 => 0xffff_ffff,
            Version::V4 => 0xffff_ffff_ffff_ffff,
        }
    }
}

/// A version's number.
impl From<Version> for u16 {
    ghost from_gives = { λ version number. number ≡ version_number version };

    fn from(version: Version) -> u16 {
        match version {
            Version::V3 => 3,
            Version::V4 => 4,
        }
    }
}

/// The version that a number stands for, if it stands for one.
impl TryFrom<u16> for Version {
    type Error = UnknownVersion;

    ghost try_from_gives = { λ number version. version ≡ ok_or (version_of number) (record { 0 = number }) };

    fn try_from(number: u16) -> Result<Version, UnknownVersion> {
        match number {
            3 => Ok(Version::V3),
            4 => Ok(Version::V4),
            _ => Err(UnknownVersion(number)),
        }
    }
}
