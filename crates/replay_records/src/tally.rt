//! How many lines were replayed, and how many differ.
ghost use Rattle.std.specs.Prelude.{◌≡◌, ◌+◌, min, if◌then◌else◌};

use std::fmt;

// Counts of its own, as its program names them: those of the other replay are of other things.
/// How many records were replayed, of how many bytes every change, and for how many lines an answer differs.
#[derive(Default, Drop)]
pub struct Tally {
    pub records: u32,
    pub bytes: u32,
    pub differing: u32,
}

impl Tally {
    /// Counts whether a line's answers differ.
    pub fn judge(&mut self, agrees: bool)
        ensures { self.new ≡ record self.old { differing = min (self.old.differing + (if agrees then 0 else 1)) 0xffff_ffff } }
    {
        self.differing = self.differing.saturating_add(u32::from(!agrees));
    }
}

impl fmt::Display for Tally {
    fn fmt<W: fmt::Write>(&self, f: &mut fmt::Formatter<W>) -> fmt::Result {
        let Tally {
            records,
            bytes,
            differing,
        } = self;
        write!(
            f,
            "replayed, in both versions and both modes: {records} records, and every change of {bytes} bytes; {differing} differ"
        )
    }
}
