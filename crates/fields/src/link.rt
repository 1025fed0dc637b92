//! Links from an entry to others.
ghost use Rattle.std.specs.Prelude.{◌≡◌};
ghost use Rattle.fields.specs.Offsets.{link_offset};

use crate::consts;

/// One of the three links of an entry.
#[derive(Debug, Clone, Copy, PartialEq, Eq)]
pub enum Link {
    Left,
    Right,
    Child,
}

impl Link {
    /// Where this link stands in a record.
    pub fn offset(self) -> usize
        ensures { result ≡ link_offset self }
    {
        match self {
            Link::Left => consts::LEFT_SIBLING_OFFSET,
            Link::Right => consts::RIGHT_SIBLING_OFFSET,
            Link::Child => consts::CHILD_OFFSET,
        }
    }
}
