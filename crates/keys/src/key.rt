ghost use Rattle.std.specs.Prelude.{◌≡◌, ℕ, true};

/// What a kind of key gives so that a table can hold it: an equality, and a hash that agrees with it.
// No `std::hash::Hash`: a table needs one number of a key, and a `Hasher` would put a state and its laws between.
pub trait Key: Eq {
    ghost hashed: { Self → ℕ };

    fn hash(&self) -> u32
        ensures tells { result ≡ hashed self.now };

    // Equal keys have equal hashes, so a key is in one chain only.
    ghost agrees: { (x y : Self) → Self.eq x y ≡ true → hashed x ≡ hashed y };
}
