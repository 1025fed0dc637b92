//! Kinds of key for a table: which keys are the same, and a hash.
#![tactic(auto)]

pub mod child;
mod hashing;
pub mod key;
pub mod sector;
