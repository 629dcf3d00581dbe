//! A law of checked tables: the function does nothing, and its contract is the law.
ghost use Rattle.route_tables.specs.Labelled.{CheckedAreLabelled};

/// Where the checks find no fault, the plane of the box is labelled.
pub fn checked_are_labelled()
    ensures { CheckedAreLabelled }
{}
