//! The types of a record's fields, their numbers, and what can be wrong with a record.
#![tactic(auto)]

pub mod color;
pub mod consts;
pub mod link;
pub mod malformed;
pub mod objtype;
pub mod timestamp;
pub mod validate;
pub mod version;
