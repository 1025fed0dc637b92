//! Why a store cannot be made of what was lent.
ghost use Rattle.std.specs.Prelude.{◌≡◌};
ghost use Rattle.stores.specs.Faults.{unfit_number};

/// Why a store cannot be made of what was lent.
#[derive(Debug, Clone, Copy, PartialEq, Eq)]
pub enum Unfit {
    /// There are fewer cells than listed sectors.
    FewCells,
    /// The sector at this place of the list stands at an earlier place too.
    Repeated(usize),
    /// The sector at this place of the list lies outside the bytes.
    Outside(usize),
    /// A count lies outside the bytes or the list: that of what is in use, or the place where one is posted.
    BadCount,
}

impl Unfit {
    // A method and no `From`: the number names a refusal, and does not hold it.
    /// The refusal's number.
    pub fn number(self) -> u32
        ensures { result ≡ unfit_number self }
    {
        match self {
            Unfit::FewCells => 17,
            Unfit::Repeated(_) | Unfit::Outside(_) | Unfit::BadCount => 53,
        }
    }
}
