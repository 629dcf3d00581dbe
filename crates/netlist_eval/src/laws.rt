// Laws: the functions do nothing, their clauses are the theorems.
ghost use Rattle.netlist_eval.specs.Eval.{OrderedHaveOneValuation};

/// A sound flat netlist whose nodes have an order has exactly one valuation for given inputs and a
/// given state.
pub fn ordered_have_one_valuation()
    ensures { OrderedHaveOneValuation }
{}
