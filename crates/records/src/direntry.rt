//! An entry of a directory, and its record.
ghost use Rattle.std.specs.Prelude.{◌≡◌, Some, None, MatchResult};
ghost use Rattle.records.specs.Rules.{rules, first, reads, about};
ghost use Rattle.records.specs.Means.{Means};
ghost use Rattle.records.specs.Entries.{fresh, blank, new_root};
ghost use Rattle.records.specs.Writing.{written};

use crate::bytes::put;
use crate::name_field::{name_field, root_name};
use crate::reading::Reader;
use fields::color::Color;
use fields::consts;
use fields::consts::{DIR_ENTRY_LEN, NO_STREAM};
use fields::malformed::Malformed;
use fields::objtype::ObjType;
use fields::timestamp::Timestamp;
use fields::validate::Validation;
use fields::version::Version;
use names::name::Name;

/// An entry of a directory: what a record means.
// Numbers for none (NO_STREAM, END_OF_CHAIN, zeros) and no Option, so that two entries never have one record.
#[derive(Debug, Clone, Copy, PartialEq, Eq)]
pub struct DirEntry {
    pub name: Name,
    pub obj_type: ObjType,
    pub color: Color,
    pub left_sibling: u32,
    pub right_sibling: u32,
    pub child: u32,
    /// The 16 bytes as they stand in the record.
    pub clsid: [u8; 16],
    pub state_bits: u32,
    pub creation_time: Timestamp,
    pub modified_time: Timestamp,
    pub start_sector: u32,
    pub stream_len: u64,
}

impl DirEntry {
    /// A new entry, with one time as both of its times. It has no sector yet; a storage never has one, and then the
    /// format wants a zero.
    pub fn new(name: Name, obj_type: ObjType, timestamp: Timestamp) -> DirEntry
        ensures { result ≡ fresh name obj_type timestamp }
    {
        DirEntry {
            name,
            obj_type,
            color: Color::Black,
            left_sibling: NO_STREAM,
            right_sibling: NO_STREAM,
            child: NO_STREAM,
            clsid: [0; 16],
            state_bits: 0,
            creation_time: timestamp,
            modified_time: timestamp,
            start_sector: if obj_type.is_storage() {
                0
            } else {
                consts::END_OF_CHAIN
            },
            stream_len: 0,
        }
    }

    /// The entry of a free record.
    pub fn unallocated() -> DirEntry
        ensures { result ≡ blank }
    {
        let nameless = Name::new(&[]).unwrap();
        DirEntry {
            color: Color::Red,
            start_sector: 0,
            ..DirEntry::new(nameless, ObjType::Unallocated, Timestamp::zero())
        }
    }

    /// The root of an empty directory.
    pub fn empty_root_entry() -> DirEntry
        ensures { result ≡ new_root }
    {
        DirEntry::new(root_name(), ObjType::Root, Timestamp::zero())
    }

    /// Reads the record of number `id`.
    pub fn read_from(
        bytes: &[u8; DIR_ENTRY_LEN],
        id: u32,
        version: Version,
        validation: Validation,
    ) -> Result<DirEntry, Malformed>
        ensures answer { result ≡ about id (reads bytes.now version validation) }
        ensures means { MatchResult result
            (λ e. (first (rules bytes.now version validation) ≡ None) × Means bytes.now version e)
            (λ x. (x.id ≡ id) × (first (rules bytes.now version validation) ≡ Some x.flaw)) }
    {
        let reader = Reader {
            bytes,
            version,
            validation,
        };
        reader.entry().map_err(|flaw| Malformed { id, flaw })
    }

    /// The record of the entry.
    pub fn to_bytes(&self) -> [u8; DIR_ENTRY_LEN]
        ensures { result ≡ written self.now }
    {
        let mut bytes = [0; DIR_ENTRY_LEN];
        put(&mut bytes, consts::NAME_OFFSET, &name_field(&self.name));
        self.put_head(&mut bytes);
        self.put_links(&mut bytes);
        self.put_stamps(&mut bytes);
        self.put_place(&mut bytes);
        bytes
    }
}
