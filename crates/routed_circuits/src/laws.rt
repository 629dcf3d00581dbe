//! Laws of routed circuits: each function does nothing, and its contract is the law.
ghost use Rattle.routed_circuits.specs.Labels.{LabelledAreDrawn};
ghost use Rattle.routed_circuits.specs.Routed.{GatesCarry, RoutedCarry};
ghost use Rattle.routed_circuits.specs.Lists.{ListsAreCarried};
ghost use Rattle.routed_circuits.specs.Tables.{RoutedShowRuns};
ghost use Rattle.routed_circuits.specs.Flats.{RoutedTextsCarry, RoutedDesignsAreCarried};
ghost use Rattle.routed_circuits.specs.Lifted.{RoutedCarryDesigns, RoutedAreLifted};

/// Gates that stand apart carry the signals of their inputs to those of their outputs.
pub fn gates_carry()
    ensures { GatesCarry }
{}

/// A plane of gates and wires carries the signals of its driven inputs to those of all ports.
pub fn routed_carry()
    ensures { RoutedCarry }
{}

/// In a labelled plane the gates stand apart, and the wires are drawn between them.
pub fn labelled_are_drawn()
    ensures { LabelledAreDrawn }
{}

/// A plane of gates and wires that computes a list of cells carries its runs.
pub fn lists_are_carried()
    ensures { ListsAreCarried }
{}

/// A routed plane shows the runs of the list of cells that it computes.
pub fn routed_show_runs()
    ensures { RoutedShowRuns }
{}

/// A text whose plane shows the runs of a list of cells carries the flat netlist that the list
/// computes.
pub fn routed_texts_carry()
    ensures { RoutedTextsCarry }
{}

/// It carries the design of the netlist, and its nets.
pub fn routed_designs_are_carried()
    ensures { RoutedDesignsAreCarried }
{}

/// It carries each design that the list computes.
pub fn routed_carry_designs()
    ensures { RoutedCarryDesigns }
{}

/// It carries the netlist that is lifted from the list.
pub fn routed_are_lifted()
    ensures { RoutedAreLifted }
{}
