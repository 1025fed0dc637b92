//! A name's key: its unit count and its folded code points.
ghost use Rattle.std.specs.Prelude.{◌≡◌, Decides};
ghost use Rattle.std.proofs.Common.{rules};
ghost use Rattle.std.specs.Cmp.Rules.{comparing};
ghost use Rattle.names.specs.Keys.{key_of, keyed, in_place, same_key};

use crate::folding::Folding;
use crate::name::{MAX_NAME_LEN, Name};
use crate::utf16::code_points;

/// A name's key, in place. Two names are the same name of a directory exactly when their keys are equal.
// Fixed memory, and `Copy`, which an `ArrayVec` is not: a key lies in the cells that a caller lends.
#[derive(Debug, Clone, Copy)]
pub struct NameKey {
    pub unit_count: u8,
    pub code_count: u8,
    pub codes: [u32; MAX_NAME_LEN],
}

impl NameKey {
    /// The folded code points of the name. What stands in the array behind them says nothing.
    pub fn codes(&self) -> &[u32]
        ensures { result.now ≡ (keyed self.now).folded }
    {
        // The fields are public and any count may stand there, so it is cut here.
        let count = usize::from(self.code_count).min(MAX_NAME_LEN);
        &self.codes[..count]
    }
}

// Not derived, since what stands in the array behind the code points that count says nothing.
impl PartialEq for NameKey {
    ghost eq = { same_key };

    ghost laws = { Prim.search (comparing, rules) };

    fn eq(&self, other: &NameKey) -> bool
        ensures tells { result ≡ same_key self.now other.now }
        ensures means { Decides result (keyed self.now ≡ keyed other.now) }
    {
        self.unit_count == other.unit_count && self.codes() == other.codes()
    }
}

impl Eq for NameKey {
    ghost laws = { Prim.search (comparing, rules) };
}

/// The key under which a name is indexed.
pub fn name_key<F: Folding>(folding: &F, name: &Name) -> NameKey
    ensures { result ≡ in_place (key_of (F.folds folding.now) name.now) }
{
    let units = name.units();
    // The array and its count are locals, not fields of a key, whose count each step would read and write in memory.
    let mut codes = [0; MAX_NAME_LEN];
    let mut count: usize = 0;
    for code in code_points(units) {
        codes[count] = folding.fold(code);
        count += 1;
    }
    NameKey {
        unit_count: units.len() as u8,
        code_count: count as u8,
        codes,
    }
}
