//! Foldings: how letters are compared without regard to case.
ghost use Rattle.std.specs.Prelude.{◌≡◌, ℕ, cond, refl};
ghost use Rattle.std.proofs.Common.{ap};
ghost use Rattle.std.proofs.lemmas.Bool.{lt-ltb};
ghost use Rattle.names.specs.Foldings.{ascii_upper, ascii_fold, paired, table_fold, KeepsAscii};

/// One fixed map from code points to numbers, the same whenever it is asked.
pub trait Folding {
    /// The map.
    ghost folds: { Self → ℕ → ℕ };

    /// What a code point goes to.
    fn fold(&self, code: u32) -> u32
        ensures { result ≡ folds self.now code };

    /// The law: a to z go to A to Z, and every other code below 128 to itself.
    ghost keeps_ascii: { (f : Self) → KeepsAscii (folds f) };
}

/// Folds a to z, and leaves every other code.
#[derive(Debug, Clone, Copy, PartialEq, Eq)]
pub struct AsciiFolding;

impl Folding for AsciiFolding {
    ghost folds = { λ _. ascii_fold };

    ghost keeps_ascii = { λ f c h. refl };

    fn fold(&self, code: u32) -> u32 {
        ascii_upper(code)
    }
}

/// Folds a to z, and looks codes above 127 up in a lent list of pairs, first pair first; a code without a pair stays.
#[derive(Debug, Clone, Copy, PartialEq, Eq)]
pub struct TableFolding<'a> {
    pairs: &'a [(u32, u32)],
}

impl<'a> TableFolding<'a> {
    pub fn new(pairs: &'a [(u32, u32)]) -> TableFolding<'a>
        ensures { result.pairs.now ≡ pairs.now }
    {
        TableFolding { pairs }
    }
}

impl Folding for TableFolding<'_> {
    ghost folds = { λ f. table_fold f.pairs.now };

    ghost keeps_ascii = { λ f c h. ap (λ b. cond b (ascii_upper c) (paired f.pairs.now c)) (lt-ltb c 128 h) };

    fn fold(&self, code: u32) -> u32 {
        if code < 128 {
            ascii_upper(code)
        } else {
            look_up(self.pairs, code)
        }
    }
}

// No `u8::to_ascii_uppercase`: any code is asked for, and most are no byte.
fn ascii_upper(code: u32) -> u32
    ensures { result ≡ ascii_upper code }
{
    match code {
        97..=122 => code - 32,
        _ => code,
    }
}

/// The second of the first pair whose first is `code`, or `code` itself.
fn look_up(pairs: &[(u32, u32)], code: u32) -> u32
    ensures { result ≡ paired pairs.now code }
{
    pairs
        .iter()
        .find(|(from, _)| *from == code)
        .map_or(code, |(_, to)| *to)
}
