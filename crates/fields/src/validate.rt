//! How closely records are held to the format when they are read.
ghost use Rattle.std.specs.Prelude.{◌≡◌};
ghost use Rattle.fields.specs.Versions.{strict};

/// How closely records are held to the format when they are read.
#[derive(Debug, Clone, Copy, PartialEq, Eq)]
pub enum Validation {
    /// What can be put right is put right: a name without its null, a root's name, and fields that should be zero.
    Permissive,
    /// Nothing is put right.
    Strict,
}

impl Validation {
    pub fn is_strict(self) -> bool
        ensures { result ≡ strict self }
    {
        self == Validation::Strict
    }
}
