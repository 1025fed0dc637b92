//! Records of a compound file's directory: 128 bytes each, read and written.
#![tactic(auto)]

mod bytes;
pub mod direntry;
pub mod laws;
mod name_field;
mod reading;
mod writing;
