//! The type of an entry.
ghost use Rattle.std.specs.Prelude.{◌≡◌, ok_or};
ghost use Rattle.fields.specs.declared.malformed.Flaw.TheVariants.{BadType};
ghost use Rattle.fields.specs.Kinds.{type_byte, type_of, is_storage, is_stream, is_root};

use crate::consts;
use crate::malformed::Flaw;

/// What an entry is.
#[derive(Debug, Clone, Copy, PartialEq, Eq)]
pub enum ObjType {
    Unallocated,
    Storage,
    Stream,
    Root,
}

impl ObjType {
    // One for each type, named as callers ask.
    pub fn is_storage(self) -> bool
        ensures { result ≡ is_storage self }
    {
        self == ObjType::Storage
    }

    pub fn is_stream(self) -> bool
        ensures { result ≡ is_stream self }
    {
        self == ObjType::Stream
    }

    pub fn is_root(self) -> bool
        ensures { result ≡ is_root self }
    {
        self == ObjType::Root
    }
}

/// The byte that stands for a type in a record.
impl From<ObjType> for u8 {
    ghost from_gives = { λ obj_type byte. byte ≡ type_byte obj_type };

    fn from(obj_type: ObjType) -> u8 {
        match obj_type {
            ObjType::Unallocated => consts::OBJ_TYPE_UNALLOCATED,
            ObjType::Storage => consts::OBJ_TYPE_STORAGE,
            ObjType::Stream => consts::OBJ_TYPE_STREAM,
            ObjType::Root => consts::OBJ_TYPE_ROOT,
        }
    }
}

/// The type that a byte stands for, if it stands for one.
impl TryFrom<u8> for ObjType {
    type Error = Flaw;

    ghost try_from_gives = { λ byte obj_type. obj_type ≡ ok_or (type_of byte) BadType };

    fn try_from(byte: u8) -> Result<ObjType, Flaw> {
        match byte {
            consts::OBJ_TYPE_UNALLOCATED => Ok(ObjType::Unallocated),
            consts::OBJ_TYPE_STORAGE => Ok(ObjType::Storage),
            consts::OBJ_TYPE_STREAM => Ok(ObjType::Stream),
            consts::OBJ_TYPE_ROOT => Ok(ObjType::Root),
            _ => Err(Flaw::BadType),
        }
    }
}
