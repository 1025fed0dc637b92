//! Paths: names from the root down, with `/` between them.
#![tactic(auto)]

ghost use Rattle.std.specs.Prelude.{◌≤◌};

mod chain;
pub mod examples;
mod reader;
mod trail;

pub use chain::{moments_are_counted, name_chain_from_path};

/// The most names that a path may hold at any moment.
pub const MAX_NAMES: usize = 64;

/// Why a path is refused.
#[derive(Debug, Clone, Copy, PartialEq, Eq)]
pub enum PathError {
    /// A surrogate stands by itself.
    BadUtf16,
    /// A `..` has no name before it to take away.
    AboveRoot,
    /// The path holds more than 64 names at some moment.
    TooManyNames,
}

/// A part of the caller's path between two separators, and the place of its first unit.
#[derive(Debug, Clone, Copy, PartialEq, Eq)]
pub struct Part<'a> {
    pub units: &'a [u16],
    pub place: usize,
}

/// Reads a lent path part by part.
#[derive(Debug, Clone, Copy)]
pub struct Parts<'a> {
    path: &'a [u16],
    // One past the path's end says that no part is left: no slice begins there, so reading it answers `None` by itself.
    at: usize,
}

/// What a part does to the names before it.
#[derive(Debug, Clone, Copy, PartialEq, Eq)]
pub enum Component {
    /// An empty part or `.`: nothing.
    CurDir,
    /// `..`: it takes the last one away.
    ParentDir,
    /// A name: it comes after them.
    Normal,
}

/// The names of a path from the root down, as parts of the caller's units.
// Fixed memory, and `Copy`, which an `ArrayVec` is not. No `==`, which would compare what lies behind the count.
#[derive(Debug, Clone, Copy)]
pub struct NameChain<'a> {
    names: [Part<'a>; MAX_NAMES],
    len: usize,
    ghost few: { len ≤ 64 },
}
