//! Copying between records and lent bytes.
ghost use Rattle.std.specs.Prelude.{◌≡◌, ◌+◌, ◌<◌, ◌≤◌, length};
ghost use Rattle.std.proofs.Math.Seq.{paste};
ghost use Rattle.stores.specs.Meaning.{freed};
ghost use Rattle.stores.specs.Places.{record_at};

use fields::consts::DIR_ENTRY_LEN;
use records::direntry::DirEntry;

/// The record of a free entry, which growing adds.
#[tactic(auto, unfolding(crate::specs::Meaning::freed))]
pub fn freed_record() -> [u8; DIR_ENTRY_LEN]
    ensures { result ≡ freed }
{
    DirEntry::unallocated().to_bytes()
}

// A test and a range: by `get` and `first_chunk` the proof of what is copied did not close.
/// Copies the record that begins at a place of the bytes, where they hold a whole one from there.
pub fn copy_out(bytes: &[u8], at: usize, into: &mut [u8; DIR_ENTRY_LEN])
    ensures copied { at + 128 ≤ length bytes.now → into.new ≡ record_at bytes.now at }
    ensures else_kept { length bytes.now < at + 128 → into.new ≡ into.old }
{
    let len = bytes.len();
    if at <= len && DIR_ENTRY_LEN <= len - at {
        into.copy_from_slice(&bytes[at..at + DIR_ENTRY_LEN]);
    }
}

// A test and a range, and no `get_mut`: what is written through it is not known afterwards.
/// Copies bytes over others from a place on, where there are enough of them.
pub fn copy_in(bytes: &mut [u8], at: usize, from: &[u8])
    ensures copied { at + length from.now ≤ length bytes.old → bytes.new ≡ paste bytes.old at from.now (length from.now) }
    ensures else_kept { length bytes.old < at + length from.now → bytes.new ≡ bytes.old }
{
    let len = bytes.len();
    if at <= len && from.len() <= len - at {
        bytes[at..at + from.len()].copy_from_slice(from);
    }
}
