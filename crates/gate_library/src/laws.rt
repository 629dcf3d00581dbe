//! A law of drawings of gates: the function does nothing, and its contract is the law.
ghost use Rattle.gate_library.specs.Lawful.{LawfulAreGatesAtPeriod};

/// What is drawn is a gate at each period that it fits.
pub fn lawful_are_gates_at_period()
    ensures { LawfulAreGatesAtPeriod }
{}
