//! One sector of a directory: Monday's records, written and read back.
use crate::text::{Text, utf16};
use anyhow::Context;
use fields::color::Color;
use fields::consts::{COLOR_OFFSET, DIR_ENTRY_LEN, NO_STREAM};
use fields::malformed::Malformed;
use fields::objtype::ObjType;
use fields::timestamp::Timestamp;
use fields::validate::Validation;
use fields::version::Version;
use names::name::Name;
use records::direntry::DirEntry;
use std::alloc::Global;
use std::fmt;

/// How many records a sector of version 3 holds.
pub const RECORDS: usize = 4;

/// A sector of version 3.
pub type Sector = [u8; 512];

/// Monday, 16 November 2026, at eight: 100-nanosecond intervals since the beginning of 1601.
const MONDAY: Timestamp = Timestamp(134_392_896_000_000_000);

fn entry(heap: Global, name: &str, obj_type: ObjType, time: Timestamp) -> anyhow::Result<DirEntry> {
    let units = utf16(heap, name)?;
    let name = Name::new(&units)
        .ok()
        .context("a name of more than 31 units")?;
    Ok(DirEntry::new(name, obj_type, time))
}

/// The root, the storage Monday in it, and in that the streams seals and Pulses, seals on top of their tree.
pub fn monday(heap: Global) -> anyhow::Result<[DirEntry; RECORDS]> {
    let mut root = DirEntry::empty_root_entry();
    root.child = 1;
    let mut monday = entry(heap, "Monday", ObjType::Storage, MONDAY)?;
    monday.child = 2;
    let mut seals = entry(heap, "seals", ObjType::Stream, Timestamp::zero())?;
    seals.right_sibling = 3;
    seals.start_sector = 0;
    seals.stream_len = 96;
    let mut pulses = entry(heap, "Pulses", ObjType::Stream, Timestamp::zero())?;
    pulses.color = Color::Red;
    pulses.start_sector = 9;
    pulses.stream_len = 18_432;
    Ok([root, monday, seals, pulses])
}

/// The sector with these records, one after the other.
pub fn write(entries: &[DirEntry; RECORDS]) -> Sector {
    let mut sector = [0; 512];
    let (records, _) = sector.as_chunks_mut::<DIR_ENTRY_LEN>();
    for (record, entry) in records.iter_mut().zip(entries) {
        *record = entry.to_bytes();
    }
    sector
}

/// One record of the sector, read strictly.
pub fn read(record: &[u8; DIR_ENTRY_LEN], number: u32) -> Result<DirEntry, Malformed> {
    DirEntry::read_from(record, number, Version::V3, Validation::Strict)
}

/// Spoils the colour of the last record.
pub fn damage(sector: &mut Sector) {
    sector[3 * DIR_ENTRY_LEN + COLOR_OFFSET] = 7;
}

/// An entry as a line of a table: kind, colour, links, name and fields.
#[derive(Clone, Copy)]
pub struct Row(pub DirEntry);

impl fmt::Display for Row {
    fn fmt<W: fmt::Write>(&self, f: &mut fmt::Formatter<W>) -> fmt::Result {
        let entry = &self.0;
        let kind = kind_of(entry.obj_type);
        let color = color_of(entry.color);
        let left = ShownLink(entry.left_sibling);
        let right = ShownLink(entry.right_sibling);
        let child = ShownLink(entry.child);
        write!(f, "{kind:<7}  {color:<5}  {left} {right} {child}  ")?;
        let name = Text(entry.name.units());
        let state = entry.state_bits;
        let Timestamp(created) = entry.creation_time;
        let Timestamp(modified) = entry.modified_time;
        let start = entry.start_sector;
        let len = entry.stream_len;
        write!(
            f,
            "{name}, state {state}, created {created}, modified {modified}, start {start}, length {len}"
        )
    }
}

/// A link as a table shows it.
#[derive(Clone, Copy)]
struct ShownLink(u32);

impl fmt::Display for ShownLink {
    fn fmt<W: fmt::Write>(&self, f: &mut fmt::Formatter<W>) -> fmt::Result {
        let number = self.0;
        if number == NO_STREAM {
            return write!(f, "-");
        }
        write!(f, "{number}")
    }
}

// No `Display`: the type is another crate's, and the text this program's.
fn kind_of(obj_type: ObjType) -> &'static str {
    match obj_type {
        ObjType::Unallocated => "free",
        ObjType::Storage => "storage",
        ObjType::Stream => "stream",
        ObjType::Root => "root",
    }
}

// No `Display`, as the type is another crate's too.
fn color_of(color: Color) -> &'static str {
    match color {
        Color::Red => "red",
        Color::Black => "black",
    }
}
