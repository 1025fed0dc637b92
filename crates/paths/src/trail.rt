//! The names of a path that is being followed.
ghost use Rattle.std.specs.Prelude.{◌≡◌, ◌+◌, ◌^◌, ◌<◌, MatchResult};
ghost use Rattle.paths.specs.declared.PathError.TheVariants.{AboveRoot};
ghost use Rattle.paths.specs.Trails.{entered, shortened};

use crate::{MAX_NAMES, Part, PathError};

/// The names met so far and not taken away, while there are at most 64 of them.
// Fixed memory: the array becomes the chain's, and the count may pass its length, as that of an `ArrayVec` can't.
#[derive(Clone, Copy)]
pub(super) struct Trail<'a> {
    pub(super) names: [Part<'a>; MAX_NAMES],
    pub(super) len: usize,
    /// The most names that there ever were.
    pub(super) most: usize,
}

impl<'a> Trail<'a> {
    /// One name more. It is kept while there is room for it.
    pub(super) fn enter(&mut self, name: Part<'a>)
        requires { self.old.len + 1 < 2 ^ 64 }
        ensures { self.new ≡ entered self.old name.entry }
    {
        // The counts are read before the name is put, and set after it, so that they need not be read again.
        let len = self.len;
        let most = self.most;
        if len < MAX_NAMES {
            self.names[len] = name;
        }
        self.len = len + 1;
        self.most = most.max(len + 1);
    }

    /// Takes the last name away; there has to be one.
    pub(super) fn leave(&mut self) -> Result<(), PathError>
        ensures value { MatchResult result (λ _. 0 < self.old.len) (λ e. (e ≡ AboveRoot) × (self.old.len ≡ 0)) }
        ensures after { self.new ≡ shortened self.old }
    {
        if self.len == 0 {
            return Err(PathError::AboveRoot);
        }
        self.len -= 1;
        Ok(())
    }
}
