//! Tilings of the plane: pieces in blocks of 32 columns and 16 rows, the plane that they draw, and what it is 32
//! generations later.
//!
//! The laws hold of every library whose tiles keep the timing law.
//!
//! Theorem: `steps_by_macro`, `shows_edges`, `is_driven_by_macro`.
#![tactic(auto)]

ghost use Rattle.tiling.specs.Steps.{MacroLaw, EdgesLaw, DrivenLaw};

/// Matched tilings move by macro steps, whatever edges are lit: at generation 32 m the plane is
/// drawn with the edges after m macro steps, and at the generations between each head or tail lies
/// in a piece with a lit entry edge.
pub fn steps_by_macro()
    ensures { MacroLaw }
{}

/// In the 32 generations after edges are lit, an entry cell at a west side is a head at the first
/// generation alone, and there exactly if its edge is lit. An exit cell at an east side is a head
/// at the last generation alone, and there exactly if its piece answers 1.
pub fn shows_edges()
    ensures { EdgesLaw }
{}

/// If heads are injected at the free entries of a matched tiling at multiples of 32 generations,
/// the tiling moves by macro steps with these injections, and each injection meets a conductor, at
/// generation 0 if its edge is not lit.
pub fn is_driven_by_macro()
    ensures { DrivenLaw }
{}
