//! Text as UTF-16 units, and units as text.
use names::utf16::code_points;
use std::alloc::{AllocError, Global};
use std::fmt;

/// The UTF-16 units of a text.
pub fn utf16(heap: Global, text: &str) -> Result<Vec<u16>, AllocError> {
    text.encode_utf16().collect(heap)
}

/// Units shown as text; a surrogate that stands by itself is shown as a question mark.
#[derive(Clone, Copy)]
pub struct Text<'a>(pub &'a [u16]);

impl fmt::Display for Text<'_> {
    fn fmt<W: fmt::Write>(&self, f: &mut fmt::Formatter<W>) -> fmt::Result {
        for code in code_points(self.0) {
            f.write_char(char::from_u32(code).unwrap_or('?'))?;
        }
        Ok(())
    }
}
