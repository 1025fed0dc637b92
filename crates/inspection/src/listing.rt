//! Names kept in directory order.
ghost use Rattle.std.specs.Prelude.{◌≡◌, ◌<◌, ◌≤◌, [], length, MatchOption, MatchResult};
ghost use Rattle.inspection.specs.Listings.{Ascends, HasAt, Splits, Enters, Keeps};

use names::folding::Folding;
use names::name::Name;
use names::order::{compare_names, names_are_ordered};
use std::alloc::{AllocError, Global};
use std::marker::Model;

/// Names in the directory order of a folding, each once.
#[derive(Drop)]
pub struct Listing<F: Folding> {
    folding: F,
    names: Vec<Name>,
}

impl<F: Folding> Model for Listing<F> {
    ghost use Rattle.std.specs.Prelude.{List};
    ghost use Rattle.names.specs.declared.name.Name.{Name as Held};
    ghost use Rattle.inspection.specs.Listings.{Ascends};

    ghost Value = { F × List Held };

    ghost view = { λ a. (a.folding, a.names.items) };

    ghost invariant = { λ a. Ascends (F.folds a.folding) a.names.items };
}

impl<F: Folding> Listing<F> {
    pub fn new(heap: Global, folding: F) -> Listing<F>
        ensures { result ≡ (folding, []) }
    {
        Listing {
            folding,
            names: Vec::new(heap),
        }
    }

    /// The names, each before those after it.
    pub fn names(&self) -> &[Name]
        ensures names { result.now ≡ self.now.1 }
        ensures ascends { Ascends (F.folds self.now.0) result.now }
    {
        self.names.as_slice()
    }

    /// Enters a name at its place; where it is there already, as it is spelled there.
    pub fn enter(&mut self, name: Name) -> Result<Option<Name>, AllocError>
        ensures folding { self.new.0 ≡ self.old.0 }
        ensures names { MatchResult result
            (λ there. MatchOption there (Enters (F.folds self.old.0) self.old.1 name self.new.1) (λ held. Keeps (F.folds self.old.0) self.old.1 name self.new.1 held))
            (λ _. self.new.1 ≡ self.old.1) }
    {
        names_are_ordered(&self.folding);
        match place_of(&self.folding, self.names.as_slice(), name.units()) {
            Ok(place) => Ok(Some(self.names[place])),
            Err(place) => {
                self.names.insert(place, name)?;
                Ok(None)
            }
        }
    }
}

/// Where a name stands among names that ascend, or else where it is to be entered.
fn place_of<F: Folding>(folding: &F, names: &[Name], units: &[u16]) -> Result<usize, usize>
    requires { Ascends (F.folds folding.now) names.now }
    ensures within { MatchResult result (λ i. i < length names.now) (λ i. i ≤ length names.now) }
    ensures place { MatchResult result (HasAt (F.folds folding.now) names.now units.now) (Splits (F.folds folding.now) names.now units.now) }
{
    names_are_ordered(folding);
    names.binary_search_by(|held| compare_names(folding, held.units(), units))
}
