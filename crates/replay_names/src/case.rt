//! One recorded answer, and whether the port gives the same.
ghost use Rattle.std.specs.Prelude.{◌≡◌, Decides, map};
ghost use Rattle.names.specs.Keys.{key_of};
ghost use Rattle.replay_names.specs.Cases.{Agrees, LeadsTo, recorded};

use names::folding::Folding;
use names::key::name_key;
use names::name::Name;
use names::order::{compare_names, names_are_ordered};
use paths::{Part, PathError, name_chain_from_path};
use std::cmp::Ordering;

/// A question and its recorded answer.
#[derive(Drop)]
pub enum Case {
    /// Two names and how they compare.
    Compare(Vec<u16>, Vec<u16>, Ordering),
    /// Two names and the recorded answer, whether their keys are equal.
    Key(Vec<u16>, Vec<u16>, bool),
    /// A path and its names, or none where it is refused.
    Chain(Vec<u16>, Option<Vec<Vec<u16>>>),
}

impl Case {
    /// Whether the port answers as it was recorded.
    pub fn agrees<F: Folding>(&self, folding: &F) -> bool
        ensures { Agrees (F.folds folding.now) self.now result }
    {
        match self {
            Case::Compare(left, right, order) => compare_names(folding, left, right) == *order,
            Case::Key(left, right, same) => have_one_key(folding, left, right) == *same,
            Case::Chain(path, names) => leads_to(path, names),
        }
    }
}

/// Whether two names have one key; of names that are too long for a key in place, whether they compare equal.
fn have_one_key<F: Folding>(folding: &F, left: &[u16], right: &[u16]) -> bool
    ensures { Decides result (key_of (F.folds folding.now) left.now ≡ key_of (F.folds folding.now) right.now) }
{
    names_are_ordered(folding);
    match (Name::new(left), Name::new(right)) {
        (Ok(left), Ok(right)) => name_key(folding, &left) == name_key(folding, &right),
        _ => compare_names(folding, left, right) == Ordering::Equal,
    }
}

/// Whether a path has exactly these names, or is refused as above the root.
fn leads_to(path: &[u16], names: &Option<Vec<Vec<u16>>>) -> bool
    ensures { Decides result (LeadsTo path.now (recorded names.now)) }
{
    match (name_chain_from_path(path), names) {
        (Err(PathError::AboveRoot), None) => true,
        (Ok(chain), Some(names)) => spell(chain.names(), names),
        _ => false,
    }
}

/// Whether parts of a path are exactly these names.
fn spell(parts: &[Part<'_>], names: &[Vec<u16>]) -> bool
    ensures { Decides result (map (λ p. p.units.now) parts.now ≡ map (λ n. n.items) names.now) }
{
    match (parts, names) {
        ([], []) => true,
        ([part, parts @ ..], [name, names @ ..]) => part.units == name.as_slice()
            && spell(parts, names),
        _ => false,
    }
}
