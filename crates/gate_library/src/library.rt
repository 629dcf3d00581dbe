// All drawings, each made once.
ghost use Rattle.std.specs.Prelude.{◌<◌, ◌≡◌, vec_len, OnOk};

use crate::drawings::drawing_of;
use crate::gate::GateDrawing;
use crate::kind::GateKind;
use crate::names::{SHAPES, TURNS};
use lists::OutOfMemory;
use std::alloc::Global;

/// The drawings of all kinds of gates.
#[derive(Drop)]
pub struct GateLibrary {
    drawings: Vec<GateDrawing>,
    ghost whole: { vec_len drawings ≡ 80 },
}

// Adds the drawings of all kinds.
fn add_all(drawings: &mut Vec<GateDrawing>, alloc: Global) -> Result<(), OutOfMemory>
    requires none { vec_len drawings.old ≡ 0 }
    ensures { OnOk result (vec_len drawings.new ≡ 80) }
{
    for shape in SHAPES {
        for turn in TURNS {
            let kind = GateKind {
                shape: *shape,
                turn: *turn,
            };
            drawings.push(drawing_of(alloc, kind)?)?;
        }
    }
    Ok(())
}

impl GateLibrary {
    /// Makes the drawings of all kinds.
    pub fn new(alloc: Global) -> Result<GateLibrary, OutOfMemory> {
        let mut drawings = Vec::new(alloc);
        match add_all(&mut drawings, alloc) {
            Ok(()) => Ok(GateLibrary { drawings }),
            Err(error) => {
                drop(drawings);
                Err(error)
            }
        }
    }

    /// Returns the drawing of a kind.
    pub fn drawing(&self, kind: GateKind) -> &GateDrawing {
        &self.drawings[8 * kind.shape as usize + kind.turn as usize]
    }
}
