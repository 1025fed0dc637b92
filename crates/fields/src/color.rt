//! The colour of an entry in its tree.
ghost use Rattle.std.specs.Prelude.{◌≡◌, ok_or};
ghost use Rattle.fields.specs.declared.malformed.Flaw.TheVariants.{BadColor};
ghost use Rattle.fields.specs.Kinds.{color_byte, color_of};

use crate::consts;
use crate::malformed::Flaw;

/// The colour of an entry, by which the tree of a storage is kept in balance.
#[derive(Debug, Clone, Copy, PartialEq, Eq)]
pub enum Color {
    Red,
    Black,
}

/// The byte that stands for a colour in a record.
impl From<Color> for u8 {
    ghost from_gives = { λ color byte. byte ≡ color_byte color };

    fn from(color: Color) -> u8 {
        match color {
            Color::Red => consts::COLOR_RED,
            Color::Black => consts::COLOR_BLACK,
        }
    }
}

/// The colour that a byte stands for, if it stands for one.
impl TryFrom<u8> for Color {
    type Error = Flaw;

    ghost try_from_gives = { λ byte color. color ≡ ok_or (color_of byte) BadColor };

    fn try_from(byte: u8) -> Result<Color, Flaw> {
        match byte {
            consts::COLOR_RED => Ok(Color::Red),
            consts::COLOR_BLACK => Ok(Color::Black),
            _ => Err(Flaw::BadColor),
        }
    }
}
