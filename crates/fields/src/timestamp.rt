//! Times of an entry.
ghost use Rattle.std.specs.Prelude.{◌≡◌};
ghost use Rattle.fields.specs.Offsets.{time_offset};

use crate::consts;

/// A time as a record has it: 100-nanosecond intervals since the beginning of 1601. Conversion is the caller's.
#[derive(Debug, Clone, Copy, PartialEq, Eq)]
pub struct Timestamp(pub u64);

impl Timestamp {
    // Zero and no `Option`, as in the record.
    /// No time.
    pub fn zero() -> Timestamp
        ensures { result.0 ≡ 0 }
    {
        Timestamp(0)
    }
}

/// One of the two times of an entry.
#[derive(Debug, Clone, Copy, PartialEq, Eq)]
pub enum Time {
    Creation,
    Modified,
}

impl Time {
    /// Where this time stands in a record.
    pub fn offset(self) -> usize
        ensures { result ≡ time_offset self }
    {
        match self {
            Time::Creation => consts::CREATION_TIME_OFFSET,
            Time::Modified => consts::MODIFIED_TIME_OFFSET,
        }
    }
}
