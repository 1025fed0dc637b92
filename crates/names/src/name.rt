//! A counted name.
ghost use Rattle.std.specs.Prelude.{◌≡◌, ◌≤◌, length, if◌then◌else◌, Ok, Err, nat_lt};
ghost use Rattle.names.specs.declared.name.NameError.TheVariants.{TooLong, Forbidden};
ghost use Rattle.names.specs.Names.{forbidden, allowed, name_number};

use std::marker::Model;

/// The most units that a name may have: a record has room for 32, and the last is a null.
pub const MAX_NAME_LEN: usize = 31;

/// A name of a storage or a stream: up to 31 units, counted, in place.
// Fixed memory, and `Copy`, which an `ArrayVec` is not: a name lies in the slots that a caller lends.
#[derive(Debug, Clone, Copy, PartialEq, Eq)]
pub struct Name {
    len: u8,
    units: [u16; MAX_NAME_LEN],
}

/// A name is its units. What lies behind them is zero, so that names with the same units are the same.
impl Model for Name {
    ghost use Rattle.std.specs.Prelude.{ℕ, List, length, take};
    ghost use Rattle.std.proofs.Common.{sym};
    ghost use Rattle.names.specs.Padding.{padded, Counted};

    ghost Value = { List ℕ };

    ghost view = { λ n. take n.len n.units };

    ghost invariant = { λ n. Counted 31 n.len n.units };

    ghost inverse = { λ us. record { len = length us; units = padded 31 us } };

    ghost inverse_ok = { λ n h i. record { len = sym h.count i; units = sym h.rest i } };
}

/// Why units are no name, or not one that an entry may be given.
#[derive(Debug, Clone, Copy, PartialEq, Eq)]
pub enum NameError {
    /// There are more than 31 units.
    TooLong,
    /// One of the units is `/`, `\`, `:` or `!`.
    Forbidden,
}

impl NameError {
    // A method and no `From`: the number names a refusal, and does not hold it.
    /// The refusal's number.
    pub fn number(self) -> u16
        ensures { result ≡ name_number self }
    {
        match self {
            NameError::TooLong => 12,
            NameError::Forbidden => 13,
        }
    }
}

impl Name {
    /// The name of these units, unless they are too many. No units at all are the empty name.
    pub fn new(units: &[u16]) -> Result<Name, NameError>
        ensures { result ≡ (if nat_lt 31 (length units.now) then Err TooLong else Ok units.now) }
    {
        let len = units.len();
        if len > MAX_NAME_LEN {
            return Err(NameError::TooLong);
        }
        let mut padded = [0; MAX_NAME_LEN];
        padded[..len].copy_from_slice(units);
        Ok(Name {
            len: len as u8,
            units: padded,
        })
    }

    /// The units of the name.
    pub fn units(&self) -> &[u16]
        ensures spelled { result.now ≡ self.now }
        ensures few { length result.now ≤ 31 }
    {
        &self.units[..usize::from(self.len)]
    }
}

/// Whether a unit may not stand in a name that an entry is given: `/`, `\`, `:` and `!`, in this order.
fn is_forbidden(unit: u16) -> bool
    ensures { result ≡ forbidden unit }
{
    matches!(u8::try_from(unit), Ok(b'/' | b'\\' | b':' | b'!'))
}

/// Whether none of `/ \ : !` stands among the units.
pub fn is_allowed(units: &[u16]) -> bool
    ensures { result ≡ allowed units.now }
{
    units.iter().all(|unit| !is_forbidden(*unit))
}

/// The name that an entry may be given: at most 31 units, and none of them forbidden.
pub fn validate_name(units: &[u16]) -> Result<Name, NameError>
    ensures { result ≡ (if nat_lt 31 (length units.now) then Err TooLong else (if allowed units.now then Ok units.now else Err Forbidden)) }
{
    let name = Name::new(units)?;
    if is_allowed(units) {
        Ok(name)
    } else {
        Err(NameError::Forbidden)
    }
}
