//! A link from a cell to a cell, in one word.
ghost use Rattle.std.specs.Prelude.{◌≡◌, ◌≢◌, Some, None};
ghost use Rattle.cells.specs.Words.{no_cell};

use std::marker::Model;

/// Stands where there is no cell: a slice is never so long that it has a cell of this number.
const NO_CELL: usize = usize::MAX;

/// The number of a cell, or none.
// Fixed memory: the cells are lent, and an `Option<usize>` would take two words.
#[derive(Clone, Copy)]
pub(crate) struct CellLink {
    word: usize,
}

impl Model for CellLink {
    ghost use Rattle.std.specs.Prelude.{ℕ, Option};
    ghost use Rattle.cells.specs.Words.{number_in, word_of, same_word};

    ghost Value = { Option ℕ };

    ghost view = { λ l. number_in l.word };

    ghost inverse = { λ o. record { word = word_of o } };

    ghost inverse_ok = { λ l _ i. record { word = same_word l.word i } };
}

impl CellLink {
    /// No cell.
    pub(crate) fn none() -> CellLink
        ensures { result ≡ None }
    {
        CellLink { word: NO_CELL }
    }

    /// The cell of this number.
    pub(crate) fn to(number: usize) -> CellLink
        requires { number ≢ no_cell }
        ensures { result ≡ Some number }
    {
        CellLink { word: number }
    }

    /// The number of the cell, if there is one.
    pub(crate) fn get(self) -> Option<usize>
        ensures { result ≡ self }
    {
        if self.word == NO_CELL {
            None
        } else {
            Some(self.word)
        }
    }
}
