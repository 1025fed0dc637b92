//! Faults: a store call that failed, told whole.
ghost use Rattle.std.specs.Prelude.{◌≡◌};
ghost use Rattle.stores.specs.Faults.{layer_number, cause_number, missing, tripped};

/// The layer of a store that a fault comes from.
#[derive(Debug, Clone, Copy, PartialEq, Eq)]
pub enum Layer {
    /// Records end to end in lent bytes.
    Flat,
    /// Records in the sectors of a compound file.
    Sector,
    /// Copies of records that were read.
    Cache,
    /// A store that is made to fail.
    Trip,
}

impl Layer {
    // A method and no `From`: the number names a layer, and does not hold it.
    /// The layer's number.
    pub fn number(self) -> u32
        ensures { result ≡ layer_number self }
    {
        match self {
            Layer::Flat => 1,
            Layer::Sector => 2,
            Layer::Cache => 3,
            Layer::Trip => 4,
        }
    }
}

/// Why a store call failed.
#[derive(Debug, Clone, Copy, PartialEq, Eq)]
pub enum Cause {
    /// The record or the byte is not there.
    NotThere,
    /// The layer was made to fail.
    Tripped,
}

impl Cause {
    // A method and no `From`: the number names a cause, and does not hold it.
    /// The cause's number.
    pub fn number(self) -> u32
        ensures { result ≡ cause_number self }
    {
        match self {
            Cause::NotThere => 1,
            Cause::Tripped => 2,
        }
    }
}

// Zeros and no `Option` where there is no record: the call that failed says so already.
/// What a store call failed with. A growth and a post have no record of their own: their number and offset are 0.
#[derive(Debug, Clone, Copy, PartialEq, Eq)]
pub struct Fault {
    pub layer: Layer,
    pub cause: Cause,
    /// The number of the record that was to be read or written.
    pub id: u32,
    /// The offset in it at which it was to be written.
    pub offset: u32,
}

impl Fault {
    // Two makers, each named after its cause: with the cause as a parameter one would only repeat the fields.
    /// The fault of a layer that has no such record, or not so many bytes in it.
    pub fn not_there(layer: Layer, id: u32, offset: u32) -> Fault
        ensures { result ≡ missing layer id offset }
    {
        Fault {
            layer,
            cause: Cause::NotThere,
            id,
            offset,
        }
    }

    /// The fault of a layer that was made to fail.
    pub fn tripped(layer: Layer, id: u32, offset: u32) -> Fault
        ensures { result ≡ tripped layer id offset }
    {
        Fault {
            layer,
            cause: Cause::Tripped,
            id,
            offset,
        }
    }
}
