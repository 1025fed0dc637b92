//! Numbers of the format, each with one home.

/// The length of a directory's record, in bytes.
pub const DIR_ENTRY_LEN: usize = 128;

/// Where the name field begins, in bytes, as below for the other fields.
pub const NAME_OFFSET: usize = 0;
/// Name length in bytes, two bytes.
pub const NAME_LEN_OFFSET: usize = 64;
/// Type, one byte.
pub const OBJ_TYPE_OFFSET: usize = 66;
/// Colour, one byte.
pub const COLOR_OFFSET: usize = 67;
/// Link to the left, four bytes.
pub const LEFT_SIBLING_OFFSET: usize = 68;
/// Link to the right, four bytes.
pub const RIGHT_SIBLING_OFFSET: usize = 72;
/// Link to the top of a storage's tree, four bytes.
pub const CHILD_OFFSET: usize = 76;
/// CLSID, sixteen bytes.
pub const CLSID_OFFSET: usize = 80;
/// State bits, four bytes.
pub const STATE_BITS_OFFSET: usize = 96;
/// Creation time, eight bytes.
pub const CREATION_TIME_OFFSET: usize = 100;
/// Modified time, eight bytes.
pub const MODIFIED_TIME_OFFSET: usize = 108;
/// Start sector, four bytes.
pub const START_SECTOR_OFFSET: usize = 116;
/// Length of the stream in bytes, eight bytes.
pub const STREAM_LEN_OFFSET: usize = 120;

/// The length of a name field, in units: 31 for a name, one for the null after it.
pub const NAME_FIELD_UNITS: usize = 32;
/// The length of a name field, in bytes.
pub const NAME_FIELD_LEN: usize = 64;

/// The root's name, `Root Entry`, as units.
pub const ROOT_DIR_NAME: [u16; 10] = [82, 111, 111, 116, 32, 69, 110, 116, 114, 121];

/// The type's byte of a free record.
pub const OBJ_TYPE_UNALLOCATED: u8 = 0;
/// The type's byte of a storage.
pub const OBJ_TYPE_STORAGE: u8 = 1;
/// The type's byte of a stream.
pub const OBJ_TYPE_STREAM: u8 = 2;
/// The type's byte of the root.
pub const OBJ_TYPE_ROOT: u8 = 5;

/// The colour's byte of red.
pub const COLOR_RED: u8 = 0;
/// The colour's byte of black.
pub const COLOR_BLACK: u8 = 1;

/// The root's number.
pub const ROOT_STREAM_ID: u32 = 0;
/// The highest number that a record can have.
pub const MAX_REGULAR_STREAM_ID: u32 = 0xffff_fffa;
/// A link that leads nowhere.
pub const NO_STREAM: u32 = 0xffff_ffff;

/// The start sector of a stream that has no sector.
pub const END_OF_CHAIN: u32 = 0xffff_fffe;
