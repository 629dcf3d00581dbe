// Drawings that were tested.
ghost use Rattle.std.specs.Prelude.{◌≡◌, IfSome};
ghost use Rattle.gate_library.specs.Lawful.{IsLawful};

use crate::GateDrawing;
use crate::testing::is_lawful;
use std::marker::Model;

/// The drawing of a gate that keeps its law, and whose answers are those of its tables. Contracts
/// see it as the drawing.
#[derive(Drop)]
pub struct LawfulGate {
    drawing: GateDrawing,
}

impl Model for LawfulGate {
    ghost use Rattle.gate_library.specs.declared.gate.GateDrawing.{GateDrawing};
    ghost use Rattle.gate_library.specs.Lawful.{IsLawful};

    ghost Value = { GateDrawing };

    ghost view = { λ g. g.drawing };

    ghost invariant = { λ g. IsLawful g.drawing };
}

impl LawfulGate {
    /// Tests a drawing, and takes it if it keeps its law, if no two of its inputs are one cell, and
    /// if its answers are those of its tables.
    pub fn of(drawing: GateDrawing) -> Option<LawfulGate>
        ensures { IfSome result (λ gate. gate ≡ drawing) }
    {
        if is_lawful(&drawing) {
            Some(LawfulGate { drawing })
        } else {
            drop(drawing);
            None
        }
    }

    /// Returns the drawing.
    pub fn drawing(&self) -> &GateDrawing
        ensures is { result.now ≡ self.now }
        ensures lawful { IsLawful self.now }
    {
        &self.drawing
    }
}
