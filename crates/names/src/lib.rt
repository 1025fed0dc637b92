//! Names of a compound file's directory: UTF-16 units, counted names, foldings, keys and the order of names.
#![tactic(auto)]

pub mod examples;
pub mod folding;
pub mod key;
pub mod name;
pub mod order;
pub mod utf16;
