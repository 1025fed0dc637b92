//! What holds of every record and every entry, for proofs to call: these functions do nothing.
ghost use Rattle.records.specs.Examples.{Examples};
ghost use Rattle.records.specs.Laws.{StrictIsExact, WrittenReadsBack, StrictInPermissive, RewrittenIsCanonical, RecordsTell, RelinkedInPlace, MadeAreAllowed};

use fields::version::Version;

/// Strict reads a record exactly where an allowed entry stands in it, and gives that entry.
pub fn strict_is_exact()
    ensures { StrictIsExact }
{}

/// An entry is written to 128 bytes; and where it is allowed, Strict reads those as itself.
pub fn written_reads_back()
    ensures { WrittenReadsBack }
{}

/// What Strict reads, Permissive reads to the same entry.
pub fn strict_in_permissive()
    ensures { StrictInPermissive }
{}

/// What is read in either mode and written again is the record put in order, and Strict reads that to the same entry.
pub fn rewritten_is_canonical()
    ensures { RewrittenIsCanonical }
{}

/// Entries whose records are equal are equal.
pub fn records_tell()
    ensures { RecordsTell }
{}

/// The record of an entry with one link changed is its record with those four bytes changed.
pub fn relinked_in_place()
    ensures { RelinkedInPlace }
{}

/// Entries as they are made are allowed.
pub fn made_are_allowed(version: Version)
    ensures { MadeAreAllowed version }
{}

/// Rows worked out: what a name length gives, and the record of a free entry.
pub fn worked_examples()
    ensures { Examples }
{}
