//! UTF-16 units taken apart into code points.
ghost use Rattle.std.specs.Prelude.{◌≡◌, ℕ, ◌<◌, true, ◌&&◌, List, [], ◌∷◌, length, Decides, MatchOption};
ghost use Rattle.std.specs.Iterator.{item_count};
ghost use Rattle.names.specs.Units.{high, low, surrogate, joined, codes, well_formed, Spells, Steps};

/// The code points of some units, from the front. A surrogate that stands by itself is handed out as it is:
/// `is_well_formed` tells whether there is one.
// No `char::decode_utf16`, whose contract does not name the list of code points that is left.
#[derive(Debug, Clone, Copy)]
pub struct CodePoints<'a> {
    units: &'a [u16],
}

/// The code points of `units`.
pub fn code_points(units: &[u16]) -> CodePoints<'_>
    ensures { result.units.now ≡ units.now }
{
    CodePoints { units }
}

impl<'a> CodePoints<'a> {
    /// The units of the code points that are left.
    pub fn units(&self) -> &'a [u16]
        ensures { result.now ≡ self.now.units.now }
    {
        self.units
    }
}

impl Iterator for CodePoints<'_> {
    type Item = u32;

    ghost next_gives = { λ s r t. Steps s.units.now r t.units.now };

    ghost remaining = { item_count (λ s. codes s.units.now) };

    fn next(&mut self) -> Option<u32> {
        let (code, rest) = first_code(self.units)?;
        *self = CodePoints { units: rest };
        Some(code)
    }
}

// Three ranges, each with a name: one function of a range would move them to its callers.
/// Whether a unit is the first half of a surrogate pair.
fn is_high(unit: u16) -> bool
    ensures { result ≡ high unit }
{
    (0xd800..=0xdbff).contains(&unit)
}

/// Whether a unit is the second half of a surrogate pair.
fn is_low(unit: u16) -> bool
    ensures { result ≡ low unit }
{
    (0xdc00..=0xdfff).contains(&unit)
}

/// Whether a code is one half of a surrogate pair, and so no code point.
fn is_surrogate(code: u32) -> bool
    ensures { result ≡ surrogate code }
{
    (0xd800..=0xdfff).contains(&code)
}

fn is_pair(first: u16, second: u16) -> bool
    ensures { result ≡ (high first && low second) }
{
    is_high(first) && is_low(second)
}

/// The code point of a surrogate pair.
fn join(first: u16, second: u16) -> u32
    requires { (high first && low second) ≡ true }
    ensures { result ≡ joined first second }
{
    0x10000 + (u32::from(first) - 0xd800) * 0x400 + (u32::from(second) - 0xdc00)
}

/// The first code point of `units` and the units after it; none where there are no units.
fn first_code(units: &[u16]) -> Option<(u32, &[u16])>
    ensures codes { MatchOption result (units.now ≡ []) (λ first. codes units.now ≡ first.0 ∷ codes first.1.now) }
    ensures shorter { MatchOption result (units.now ≡ []) (λ first. length first.1.now < length units.now) }
{
    match units {
        [first, second, rest @ ..] if is_pair(*first, *second) => {
            Some((join(*first, *second), rest))
        }
        [unit, rest @ ..] => Some((u32::from(*unit), rest)),
        [] => None,
    }
}

/// Whether units are UTF-16: every high surrogate is followed by a low one, and no low one stands alone.
pub fn is_well_formed(units: &[u16]) -> bool
    ensures value { result ≡ well_formed units.now }
    ensures spells { Decides result (Spells units.now (codes units.now)) }
    ensures only { (cs : List ℕ) → Spells units.now cs → cs ≡ codes units.now }
{
    code_points(units).all(|code| !is_surrogate(code))
}
