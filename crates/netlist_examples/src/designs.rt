// Designs for which the definitions give what a reader expects.
ghost use Rattle.netlist_examples.specs.Instances.{AdderAdds, LatchBreaksLoop, LatchToggles};
ghost use Rattle.netlist_examples.specs.OneCover.{OneCoverComputes};

/// A latch with init 0 that takes the inverse of its output has a run, and in every run its output
/// is 0 and 1 in turn.
pub fn latch_toggles()
    ensures { LatchToggles }
{}

/// A circle of covers through a latch is no combinational loop.
pub fn latch_breaks_loop()
    ensures { LatchBreaksLoop }
{}

/// The two-bit adder, made of two full adders, has a run on all rows of five bits, and in every run
/// it adds.
pub fn adder_adds()
    ensures { AdderAdds }
{}

/// A model of one cover of two inputs has a run on all rows of two bits, and in every run its
/// output is the cover's value.
pub fn one_cover_computes_its_value()
    ensures { OneCoverComputes }
{}
