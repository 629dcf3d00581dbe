//! Laws of the rules on models. The functions do nothing: each has a law as its contract.
ghost use Rattle.netlist_rules.specs.Laws.{FaultlessOrFault, ModelFaultIsFirst};

/// The fault of models by a rule on models, the rule on circles aside, is by the lowest rule that
/// they break, at the earliest word that breaks it.
pub fn model_fault_is_first()
    ensures { ModelFaultIsFirst }
{}

/// Models break no rule on models, or have a fault by one.
pub fn faultless_or_fault()
    ensures { FaultlessOrFault }
{}
