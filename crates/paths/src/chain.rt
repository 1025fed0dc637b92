//! A path resolved into the names that it leaves.
ghost use Rattle.std.specs.Prelude.{◌≡◌, ◌<◌, ◌≤◌, All, List, [], length, IfOk, Some, None, MatchOption, MatchResult, slice_index_or};
ghost use Rattle.paths.specs.declared.PathError.TheVariants.{AboveRoot};
ghost use Rattle.paths.specs.Pieces.{Piece, cut, walk, deepest, Most, resolved, path_refusal, AllWellFormed};
ghost use Rattle.paths.specs.Chains.{piece_of, no_piece, names_of, chained, Stands};
ghost use Rattle.paths.specs.Trails.{Onward};

use crate::trail::Trail;
use crate::{Component, MAX_NAMES, NameChain, Part, Parts, PathError};
use names::utf16::is_well_formed;

/// What stands in a trail before there is a name.
// Behind a reference, so that it is copied whole: to fill the array part by part takes longer than to follow a short path.
const NO_NAMES: &[Part<'static>; MAX_NAMES] = &[Part {
    units: &[],
    place: 0,
}; MAX_NAMES];

/// The names of a path, from the root down.
pub fn name_chain_from_path(path: &[u16]) -> Result<NameChain<'_>, PathError>
    ensures names { MatchResult result (λ chain. (path_refusal path.now ≡ None) × (chained chain ≡ resolved path.now)) (λ e. path_refusal path.now ≡ Some e) }
    ensures spelled { IfOk result (λ chain. AllWellFormed (chained chain)) }
    ensures lent { IfOk result (λ chain. All (λ p. Stands p path.now) (names_of chain)) }
{
    if !is_well_formed(path) {
        return Err(PathError::BadUtf16);
    }
    let mut trail = Trail {
        names: *NO_NAMES,
        len: 0,
        most: 0,
    };
    follow(path, &mut trail)?;
    if trail.most > MAX_NAMES {
        return Err(PathError::TooManyNames);
    }
    Ok(NameChain {
        names: trail.names,
        len: trail.len,
    })
}

/// Follows a path from the root; a `..` without a name before it is refused.
// It fills a trail of its caller's, since one in its answer would be copied.
fn follow<'a>(path: &'a [u16], trail: &mut Trail<'a>) -> Result<(), PathError>
    requires { Onward path.now (cut 0 path.now) (cut 0 path.now) trail.old }
    ensures { MatchResult result (λ _. Onward path.now (cut 0 path.now) [] trail.new) (λ e. (e ≡ AboveRoot) × (0 < (walk (cut 0 path.now)).ups)) }
{
    for part in Parts::new(path) {
        match Component::of(part.units) {
            Component::CurDir => {}
            Component::ParentDir => trail.leave()?,
            Component::Normal => trail.enter(part),
        }
    }
    Ok(())
}

impl<'a> NameChain<'a> {
    /// The names, from the root down.
    pub fn names(&self) -> &[Part<'a>]
        ensures { result.now ≡ names_of self.now }
    {
        &self.names[..self.len]
    }

    /// How many names there are.
    pub fn len(&self) -> usize
        ensures value { result ≡ length (chained self.now) }
        ensures few { result ≤ 64 }
    {
        self.names().len()
    }

    /// The name at an index, counted from the root down.
    pub fn get(&self, index: usize) -> Option<Part<'a>>
        ensures { MatchOption result (length (chained self.now) ≤ index) (λ part. (index < length (chained self.now)) × (piece_of part ≡ slice_index_or (chained self.now) index no_piece)) }
    {
        self.names().get(index).copied()
    }
}

/// States what refusal 6 counts, for proofs to call: the most names that any front of a path leaves. It does nothing.
pub fn moments_are_counted()
    ensures { (ps : List Piece) → Most ps (deepest 0 ps) }
{}
