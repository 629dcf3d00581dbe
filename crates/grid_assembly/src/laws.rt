//! What the drawing of a plan is, and what it does in time.
ghost use Rattle.tiling.specs.Steps.{KeepsLaw};
ghost use Rattle.grid_assembly.specs.Laws.{PatternsArePlanes, StepsByEdges};

use tile_core::Library;
use tile_library::Shipped;

/// The drawings of every library keep the timing law of their kinds.
pub fn keeps_law<L: Library>(library: &L)
    ensures { KeepsLaw (L.drawing library.now) }
{}

/// An admissible plan in the shipped drawings moves by macro steps, whatever edges are lit: at
/// generation 32 m the plane is drawn with the edges after m macro steps, and at the generations
/// between each head or tail lies in a tile with a lit entry edge.
pub fn steps_by_edges()
    ensures { StepsByEdges }
{
    keeps_law(&Shipped);
}

/// The rows of the drawing of an admissible plan are a box of cells, and the plane of this box is
/// the plan's plane at generation 0.
pub fn patterns_are_planes()
    ensures { PatternsArePlanes }
{}
