//! Parts of a record's bytes. Numbers stand in them with the low byte first.
ghost use Rattle.std.specs.Prelude.{◌≡◌, ◌+◌, ◌≤◌, ◌++◌, length, take, drop};
ghost use Rattle.records.specs.Bytes.{part};

use fields::consts::DIR_ENTRY_LEN;

/// The bytes of a field, from its offset on.
pub fn part<const N: usize>(bytes: &[u8; DIR_ENTRY_LEN], at: usize) -> [u8; N]
    requires { at + N ≤ 128 }
    ensures { result ≡ part at N bytes.now }
{
    *bytes[at..].first_chunk().unwrap()
}

/// Writes bytes from an offset on.
pub fn put<const N: usize>(bytes: &mut [u8], at: usize, part: &[u8; N])
    requires { at + N ≤ length bytes.old }
    ensures front { take (at + N) bytes.new ≡ take at bytes.old ++ part.now }
    ensures rest { drop (at + N) bytes.new ≡ drop (at + N) bytes.old }
{
    bytes[at..at + N].copy_from_slice(part);
}
