/// Every cell of the table holds another key.
#[derive(Clone, Copy, Debug, PartialEq, Eq)]
pub struct Full;

/// The lent cells are fewer than the numbers to be held in them.
#[derive(Clone, Copy, Debug, PartialEq, Eq)]
pub struct FewCells;
