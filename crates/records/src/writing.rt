//! The parts of a record, written one after the other.
ghost use Rattle.std.specs.Prelude.{◌≡◌, ◌++◌, take};
ghost use Rattle.records.specs.Writing.{head_bytes, link_bytes, stamp_bytes, place_bytes};

use crate::bytes::put;
use crate::direntry::DirEntry;
use fields::consts;
use fields::consts::DIR_ENTRY_LEN;

// Each write says what stands before its end then, so that none has to say what it leaves alone.
impl DirEntry {
    /// The length counts the null after the name, too.
    pub(crate) fn put_head(&self, bytes: &mut [u8; DIR_ENTRY_LEN])
        ensures { take 68 bytes.new ≡ take 64 bytes.old ++ head_bytes self.now }
    {
        let len = 2 * (self.name.units().len() as u16 + 1);
        put(bytes, consts::NAME_LEN_OFFSET, &len.to_le_bytes());
        put(
            bytes,
            consts::OBJ_TYPE_OFFSET,
            &[self.obj_type.into(), self.color.into()],
        );
    }

    pub(crate) fn put_links(&self, bytes: &mut [u8; DIR_ENTRY_LEN])
        ensures { take 80 bytes.new ≡ take 68 bytes.old ++ link_bytes self.now }
    {
        put(
            bytes,
            consts::LEFT_SIBLING_OFFSET,
            &self.left_sibling.to_le_bytes(),
        );
        put(
            bytes,
            consts::RIGHT_SIBLING_OFFSET,
            &self.right_sibling.to_le_bytes(),
        );
        put(bytes, consts::CHILD_OFFSET, &self.child.to_le_bytes());
    }

    pub(crate) fn put_stamps(&self, bytes: &mut [u8; DIR_ENTRY_LEN])
        ensures { take 116 bytes.new ≡ take 80 bytes.old ++ stamp_bytes self.now }
    {
        put(bytes, consts::CLSID_OFFSET, &self.clsid);
        put(
            bytes,
            consts::STATE_BITS_OFFSET,
            &self.state_bits.to_le_bytes(),
        );
        put(
            bytes,
            consts::CREATION_TIME_OFFSET,
            &self.creation_time.0.to_le_bytes(),
        );
        put(
            bytes,
            consts::MODIFIED_TIME_OFFSET,
            &self.modified_time.0.to_le_bytes(),
        );
    }

    pub(crate) fn put_place(&self, bytes: &mut [u8; DIR_ENTRY_LEN])
        ensures { take 128 bytes.new ≡ take 116 bytes.old ++ place_bytes self.now }
    {
        put(
            bytes,
            consts::START_SECTOR_OFFSET,
            &self.start_sector.to_le_bytes(),
        );
        put(
            bytes,
            consts::STREAM_LEN_OFFSET,
            &self.stream_len.to_le_bytes(),
        );
    }
}
