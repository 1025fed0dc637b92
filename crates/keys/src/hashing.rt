ghost use Rattle.std.specs.Prelude.{◌≡◌};
ghost use Rattle.keys.specs.Keys.{mixed};

/// The hash of nothing.
pub(crate) const SEED: u32 = 0x811c_9dc5;

/// Odd, and its bits are spread, so that a product moves each bit of a number into many higher ones.
const SPREAD: u32 = 0x9e37_79b1;

/// A hash with one more number mixed in. The shift brings the higher bits back to the lower ones, which decide
/// the bucket where the number of cells is a power of two.
#[tactic(auto, unfolding(crate::specs::Keys::mixed))]
pub(crate) fn mix(hash: u32, number: u32) -> u32
    ensures { result ≡ mixed hash number }
{
    let spread = (hash ^ number).wrapping_mul(SPREAD);
    spread ^ (spread >> 15)
}
