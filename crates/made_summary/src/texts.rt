//! What made texts are. The function here does nothing; its clause is a law.
ghost use Rattle.made_summary.specs.MadeNetlists.{MadeAreNetlists};

/// The text of every seed and of 1 to 128 gates is a netlist, whose design is the made one.
pub fn made_are_netlists()
    ensures { MadeAreNetlists }
{}
