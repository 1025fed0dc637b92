//! Stores of records: what a directory asks of the place where its records are kept.
//!
//! `store` has the interface on which the directory is proved for every store, `fault` what a store call can fail
//! with, `span` the bytes that a call asks for, `unfit` why a store cannot be made, and `bytes` the copying between
//! records and lent bytes.
#![tactic(auto)]

pub mod bytes;
pub mod fault;
pub mod span;
pub mod store;
pub mod unfit;
