//! A lent path, read part by part.
ghost use Rattle.std.specs.Prelude.{◌≡◌, ◌≤◌, ◌==◌, ⊤, length, IfSome};
ghost use Rattle.std.specs.List.{position_or_len};
ghost use Rattle.std.specs.Iterator.{YieldsFirstBy, MakesProgress, item_count};
ghost use Rattle.paths.specs.Pieces.{cut, kind_of, path_number};
ghost use Rattle.paths.specs.Chains.{piece_of, left, Stands};

use crate::{Component, Part, Parts, PathError};

const SEPARATOR: u16 = b'/' as u16;

const DOT: u16 = b'.' as u16;

impl PathError {
    // A method and no `From`: the number names a refusal, and does not hold it.
    /// The refusal's number.
    pub fn number(self) -> u16
        ensures { result ≡ path_number self }
    {
        match self {
            PathError::BadUtf16 => 4,
            PathError::AboveRoot => 5,
            PathError::TooManyNames => 6,
        }
    }
}

impl<'a> Parts<'a> {
    /// A reader at the start of a path.
    pub fn new(path: &'a [u16]) -> Parts<'a>
        ensures path { result.path.now ≡ path.now }
        ensures start { left result ≡ cut 0 path.now }
    {
        Parts { path, at: 0 }
    }
}

impl<'a> Iterator for Parts<'a> {
    type Item = Part<'a>;

    ghost next_gives = { YieldsFirstBy piece_of left };

    ghost remaining = { item_count left };

    /// The next part, if one is left.
    fn next(&mut self) -> Option<Part<'a>>
        ensures steps { YieldsFirstBy piece_of left self.old result self.new }
        ensures goes { MakesProgress (λ _. ⊤) (item_count left) self.old result self.new }
        ensures path { self.new.path.now ≡ self.old.path.now }
        ensures lent { IfSome result (λ p. Stands p self.old.path.now) }
    {
        let place = self.at;
        let rest = self.path.get(place..)?;
        let len = until_separator(rest);
        self.at = place + len + 1;
        Some(Part {
            units: &rest[..len],
            place,
        })
    }
}

/// How many units stand before the first separator.
fn until_separator(units: &[u16]) -> usize
    ensures value { result ≡ position_or_len (λ unit. unit == 47) units.now }
    ensures within { result ≤ length units.now }
{
    units
        .iter()
        .position(|unit| *unit == SEPARATOR)
        .unwrap_or(units.len())
}

impl Component {
    // No `From`: a part is looked at, and not turned into a component.
    /// What a part does.
    pub fn of(units: &[u16]) -> Component
        ensures { result ≡ kind_of units.now }
    {
        match units {
            [] | [DOT] => Component::CurDir,
            [DOT, DOT] => Component::ParentDir,
            _ => Component::Normal,
        }
    }
}
