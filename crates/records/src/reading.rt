//! The parts of a record, read one after the other.
ghost use Rattle.std.specs.Prelude.{◌≡◌};
ghost use Rattle.records.specs.Fields.{time_in, length_in};
ghost use Rattle.records.specs.Steps.{unset_step, link_step, child_step, head_steps, link_steps, stamp_steps, place_steps, entry_steps};

use crate::bytes::part;
use crate::direntry::DirEntry;
use fields::color::Color;
use fields::consts;
use fields::consts::{DIR_ENTRY_LEN, MAX_REGULAR_STREAM_ID, NO_STREAM};
use fields::link::Link;
use fields::malformed::Flaw;
use fields::objtype::ObjType;
use fields::timestamp::{Time, Timestamp};
use fields::validate::Validation;
use fields::version::Version;
use names::name::Name;

#[derive(Clone, Copy)]
pub struct Head {
    pub name: Name,
    pub obj_type: ObjType,
    pub color: Color,
}

#[derive(Clone, Copy)]
pub struct Links {
    pub left: u32,
    pub right: u32,
    pub child: u32,
}

#[derive(Clone, Copy)]
pub struct Stamps {
    pub clsid: [u8; 16],
    pub creation: Timestamp,
    pub modified: Timestamp,
}

#[derive(Clone, Copy)]
pub struct Place {
    pub start: u32,
    pub length: u64,
}

/// A record to be read, the version of its file, and how closely it is held to the format.
#[derive(Clone, Copy)]
pub struct Reader<'a> {
    pub bytes: &'a [u8; DIR_ENTRY_LEN],
    pub version: Version,
    pub validation: Validation,
}

impl Reader<'_> {
    /// A field that the entry's type does not have: it is read as `none`, and Strict refuses any other value there.
    fn unset<T: PartialEq + Copy>(&self, field: T, none: T, flaw: Flaw) -> Result<T, Flaw>
        ensures { result ≡ unset_step self.now.validation (T.eq field none) none flaw }
    {
        if self.validation.is_strict() && field != none {
            Err(flaw)
        } else {
            Ok(none)
        }
    }

    /// Name, type and colour.
    fn head(&self) -> Result<Head, Flaw>
        ensures { result ≡ head_steps self.now.bytes.now self.now.validation }
    {
        let name = self.name()?;
        let obj_type = ObjType::try_from(self.bytes[consts::OBJ_TYPE_OFFSET])?;
        let name = self.title(name, obj_type)?;
        let color = Color::try_from(self.bytes[consts::COLOR_OFFSET])?;
        Ok(Head {
            name,
            obj_type,
            color,
        })
    }

    /// A link leads to a number that a record can have, or nowhere.
    fn link(&self, link: Link) -> Result<u32, Flaw>
        ensures { result ≡ link_step self.now.bytes.now link }
    {
        let id = u32::from_le_bytes(part(self.bytes, link.offset()));
        if id > MAX_REGULAR_STREAM_ID && id != NO_STREAM {
            Err(Flaw::BadLink(link))
        } else {
            Ok(id)
        }
    }

    // The type is a parameter of its own, since it is known only when the head was read.
    /// A stream has no child.
    fn child(&self, obj_type: ObjType) -> Result<u32, Flaw>
        ensures { result ≡ child_step self.now.bytes.now obj_type }
    {
        let id = u32::from_le_bytes(part(self.bytes, consts::CHILD_OFFSET));
        if obj_type.is_stream() && id != NO_STREAM {
            return Err(Flaw::StreamChild);
        }
        self.link(Link::Child)
    }

    fn links(&self, obj_type: ObjType) -> Result<Links, Flaw>
        ensures { result ≡ link_steps self.now.bytes.now obj_type }
    {
        let left = self.link(Link::Left)?;
        let right = self.link(Link::Right)?;
        let child = self.child(obj_type)?;
        Ok(Links { left, right, child })
    }

    fn time(&self, time: Time) -> Timestamp
        ensures { result.0 ≡ time_in self.now.bytes.now time }
    {
        Timestamp(u64::from_le_bytes(part(self.bytes, time.offset())))
    }

    /// A stream has no CLSID and no times.
    fn stamps(&self, obj_type: ObjType) -> Result<Stamps, Flaw>
        ensures { result ≡ stamp_steps self.now.bytes.now obj_type self.now.validation }
    {
        let clsid = part(self.bytes, consts::CLSID_OFFSET);
        let creation = self.time(Time::Creation);
        let modified = self.time(Time::Modified);
        if !obj_type.is_stream() {
            return Ok(Stamps {
                clsid,
                creation,
                modified,
            });
        }
        let none = Timestamp::zero();
        let clsid = self.unset(clsid, [0; 16], Flaw::StreamClsid)?;
        let creation = self.unset(creation, none, Flaw::StreamTime(Time::Creation))?;
        let modified = self.unset(modified, none, Flaw::StreamTime(Time::Modified))?;
        Ok(Stamps {
            clsid,
            creation,
            modified,
        })
    }

    /// What counts of a stream's length.
    fn stream_len(&self) -> u64
        ensures { result ≡ length_in self.now.bytes.now self.now.version }
    {
        let length = u64::from_le_bytes(part(self.bytes, consts::STREAM_LEN_OFFSET));
        length & self.version.stream_len_mask()
    }

    /// A storage has no start sector and no length.
    fn place(&self, obj_type: ObjType) -> Result<Place, Flaw>
        ensures { result ≡ place_steps self.now.bytes.now obj_type self.now.version self.now.validation }
    {
        let start = u32::from_le_bytes(part(self.bytes, consts::START_SECTOR_OFFSET));
        let length = self.stream_len();
        if !obj_type.is_storage() {
            return Ok(Place { start, length });
        }
        let start = self.unset(start, 0, Flaw::StorageStart)?;
        let length = self.unset(length, 0, Flaw::StorageLength)?;
        Ok(Place { start, length })
    }

    /// The entry that the record means.
    pub fn entry(&self) -> Result<DirEntry, Flaw>
        ensures { result ≡ entry_steps self.now.bytes.now self.now.version self.now.validation }
    {
        let head = self.head()?;
        let links = self.links(head.obj_type)?;
        let stamps = self.stamps(head.obj_type)?;
        let place = self.place(head.obj_type)?;
        // An array is not taken from a field straight into a literal.
        let clsid = stamps.clsid;
        Ok(DirEntry {
            name: head.name,
            obj_type: head.obj_type,
            color: head.color,
            left_sibling: links.left,
            right_sibling: links.right,
            child: links.child,
            clsid,
            state_bits: u32::from_le_bytes(part(self.bytes, consts::STATE_BITS_OFFSET)),
            creation_time: stamps.creation,
            modified_time: stamps.modified,
            start_sector: place.start,
            stream_len: place.length,
        })
    }
}
