//! Worked examples, proved.
ghost use Rattle.paths.specs.Examples.{Examples};

/// States the table of worked examples, of names and of paths; it does nothing.
pub fn worked_examples()
    ensures { Examples }
{}
