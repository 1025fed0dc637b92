//! Why a record is refused.
ghost use Rattle.std.specs.Prelude.{◌≡◌};
ghost use Rattle.fields.specs.Refusals.{flaw_number, flaw_offset, refusal_number, refusal_offset};

use crate::consts;
use crate::link::Link;
use crate::timestamp::Time;

/// What is wrong with a record.
#[derive(Debug, Clone, Copy, PartialEq, Eq)]
pub enum Flaw {
    /// The name length is over 64 bytes.
    LongName,
    /// The name length is odd.
    OddName,
    /// No null stands after the name.
    NoNull,
    /// The name is not UTF-16.
    BadUtf16,
    /// The byte stands for no type.
    BadType,
    /// The root has another name than its own.
    RootName,
    /// The name has one of `/ \ : !` in it.
    ForbiddenUnit,
    /// The byte stands for no colour.
    BadColor,
    /// The link is no number that a record can have.
    BadLink(Link),
    /// A stream has a child.
    StreamChild,
    /// A stream has a CLSID.
    StreamClsid,
    /// A stream has a time.
    StreamTime(Time),
    /// A storage has a start sector.
    StorageStart,
    /// A storage has a length.
    StorageLength,
}

impl Flaw {
    // A method and no `From`: the number names a flaw, and does not hold it.
    /// The refusal's number.
    pub fn number(self) -> u16
        ensures { result ≡ flaw_number self }
    {
        match self {
            Flaw::LongName => 20,
            Flaw::OddName => 21,
            Flaw::NoNull => 22,
            Flaw::BadUtf16 => 23,
            Flaw::BadType => 24,
            Flaw::RootName => 25,
            Flaw::ForbiddenUnit => 26,
            Flaw::BadColor => 27,
            Flaw::BadLink(_) => 28,
            Flaw::StreamChild => 29,
            Flaw::StreamClsid => 30,
            Flaw::StreamTime(_) => 31,
            Flaw::StorageStart => 32,
            Flaw::StorageLength => 33,
        }
    }

    /// Where the field begins that is wrong.
    pub fn offset(self) -> usize
        ensures { result ≡ flaw_offset self }
    {
        match self {
            Flaw::LongName | Flaw::OddName => consts::NAME_LEN_OFFSET,
            Flaw::NoNull | Flaw::BadUtf16 | Flaw::RootName | Flaw::ForbiddenUnit =>
                consts::NAME_OFFSET,
            Flaw::BadType => consts::OBJ_TYPE_OFFSET,
            Flaw::BadColor => consts::COLOR_OFFSET,
            Flaw::BadLink(link) => link.offset(),
            Flaw::StreamChild => consts::CHILD_OFFSET,
            Flaw::StreamClsid => consts::CLSID_OFFSET,
            Flaw::StreamTime(time) => time.offset(),
            Flaw::StorageStart => consts::START_SECTOR_OFFSET,
            Flaw::StorageLength => consts::STREAM_LEN_OFFSET,
        }
    }
}

/// A record that is refused: its number, and what is wrong with it.
#[derive(Debug, Clone, Copy, PartialEq, Eq)]
pub struct Malformed {
    pub id: u32,
    pub flaw: Flaw,
}

impl Malformed {
    // A method and no `From`: the number names a refusal, and does not hold it.
    /// The refusal's number.
    pub fn number(self) -> u16
        ensures { result ≡ refusal_number self }
    {
        self.flaw.number()
    }

    /// Where the field begins that is wrong.
    pub fn offset(self) -> usize
        ensures { result ≡ refusal_offset self }
    {
        self.flaw.offset()
    }
}
