//! Worked examples, proved.
ghost use Rattle.names.specs.Examples.{Examples};

/// States the table of worked examples; it does nothing.
pub fn worked_examples()
    ensures { Examples }
{}
