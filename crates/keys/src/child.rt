ghost use Rattle.std.specs.Prelude.{◌≡◌, Decides};
ghost use Rattle.std.proofs.Common.{rules};
ghost use Rattle.keys.specs.Keys.{same_child, child_hash, child_of};

use crate::hashing::{SEED, mix};
use crate::key::Key;
use names::key::NameKey;

/// A name below a storage, as a key: the storage's number and the name's key.
#[derive(Clone, Copy, Debug, PartialEq, Eq)]
pub struct ChildKey {
    pub parent: u32,
    pub name: NameKey,
}

impl Key for ChildKey {
    ghost hashed = { child_hash };

    ghost agrees = { Prim.search rules };

    fn hash(&self) -> u32 {
        let head = mix(mix(SEED, self.parent), u32::from(self.name.unit_count));
        self.name
            .codes()
            .iter()
            .fold(head, |hash, code| mix(hash, *code))
    }
}

/// Two keys are equal exactly where they stand for one child.
pub fn children_are_told(left: &ChildKey, right: &ChildKey)
    ensures tells { ⟦<ChildKey as PartialEq>⟧.eq left.now right.now ≡ same_child left.now right.now }
    ensures means { Decides (⟦<ChildKey as PartialEq>⟧.eq left.now right.now) (child_of left.now ≡ child_of right.now) }
{}
