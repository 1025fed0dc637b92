//! One table for every kind of key, in lent cells: a finite map from keys to numbers that allocates nothing.
//!
//! `cell` has what is lent, `table` the calls, `repeat` the question that is asked with a table of sector numbers, and
//! `refusal` the errors. `chain` and `link` are the layout, which no caller sees.
#![tactic(auto)]

pub mod cell;
mod chain;
mod link;
pub mod refusal;
pub mod repeat;
pub mod table;
