//! What the port answers for a record, as the list has it.
use fields::consts::DIR_ENTRY_LEN;
use fields::malformed::Malformed;
use records::direntry::DirEntry;
use std::fmt;

/// What reading a record gave.
#[derive(Drop)]
pub struct Answer<'a> {
    pub record: &'a [u8; DIR_ENTRY_LEN],
    pub read: Result<DirEntry, Malformed>,
}

/// `NUMBER@OFFSET` of a refusal; or the fields of the entry in hex, and each byte that is another when it is written
/// again, as its place and its value.
impl fmt::Display for Answer<'_> {
    fn fmt<W: fmt::Write>(&self, f: &mut fmt::Formatter<W>) -> fmt::Result {
        match &self.read {
            Ok(entry) => {
                show_names(entry, f)?;
                show_numbers(entry, f)?;
                show_changes(self.record, &entry.to_bytes(), f)
            }
            Err(refusal) => {
                let number = refusal.number();
                let offset = refusal.offset();
                write!(f, "{number}@{offset}")
            }
        }
    }
}

fn show_names<W: fmt::Write>(entry: &DirEntry, f: &mut fmt::Formatter<W>) -> fmt::Result {
    for unit in entry.name.units() {
        let unit = *unit;
        write!(f, "{unit:04x}")?;
    }
    let kind = u8::from(entry.obj_type);
    let color = u8::from(entry.color);
    write!(f, ".{kind:x}.{color:x}")
}

fn show_numbers<W: fmt::Write>(entry: &DirEntry, f: &mut fmt::Formatter<W>) -> fmt::Result {
    let left = entry.left_sibling;
    let right = entry.right_sibling;
    let child = entry.child;
    write!(f, ".{left:x}.{right:x}.{child:x}.")?;
    for byte in &entry.clsid {
        let byte = *byte;
        write!(f, "{byte:02x}")?;
    }
    let state = entry.state_bits;
    let creation = entry.creation_time.0;
    let modified = entry.modified_time.0;
    let start = entry.start_sector;
    let len = entry.stream_len;
    write!(f, ".{state:x}.{creation:x}.{modified:x}.{start:x}.{len:x}.")
}

fn show_changes<W: fmt::Write>(
    record: &[u8; DIR_ENTRY_LEN],
    written: &[u8; DIR_ENTRY_LEN],
    f: &mut fmt::Formatter<W>,
) -> fmt::Result {
    for (i, (byte, before)) in written.iter().zip(record).enumerate() {
        let byte = *byte;
        if byte != *before {
            write!(f, "{i:02x}{byte:02x}")?;
        }
    }
    Ok(())
}
