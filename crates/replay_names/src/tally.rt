//! How many cases were replayed, and how many differ.
ghost use Rattle.std.specs.Prelude.{◌≡◌};
ghost use Rattle.replay_names.specs.Cases.{counted};

use crate::case::Case;
use std::fmt;

// Counts of its own, as its program names them: those of the other replay are of other things.
#[derive(Default, Drop)]
pub struct Tally {
    compared: u32,
    keyed: u32,
    chained: u32,
    differing: u32,
}

impl Tally {
    /// Counts a case, and whether it differs.
    pub fn count(&mut self, case: &Case, agrees: bool)
        ensures { self.new ≡ counted self.old case.now agrees }
    {
        let compared = matches!(case, Case::Compare(..));
        let keyed = matches!(case, Case::Key(..));
        let chained = matches!(case, Case::Chain(..));
        self.compared = self.compared.saturating_add(u32::from(compared));
        self.keyed = self.keyed.saturating_add(u32::from(keyed));
        self.chained = self.chained.saturating_add(u32::from(chained));
        self.differing = self.differing.saturating_add(u32::from(!agrees));
    }
}

impl fmt::Display for Tally {
    fn fmt<W: fmt::Write>(&self, f: &mut fmt::Formatter<W>) -> fmt::Result {
        let Tally {
            compared,
            keyed,
            chained,
            differing,
        } = self;
        write!(
            f,
            "replayed: {compared} comparisons, {keyed} keys, {chained} paths; {differing} differ"
        )
    }
}
