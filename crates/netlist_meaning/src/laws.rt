//! What is proved of the definitions, for every design. The function does nothing: its contract is a law.

ghost use Rattle.netlist_core.specs.declared.model.Design.{Design};
ghost use Rattle.netlist_meaning.specs.Laws.{IsLeastEquivalence};

/// Joined nets are the least equivalence in which each pin joins its actual with its formal.
pub fn joined_is_the_least_equivalence()
    ensures { (design : Design) → IsLeastEquivalence design }
{}
