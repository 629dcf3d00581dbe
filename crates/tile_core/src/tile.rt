// What a tile is, and what a library of tiles is: the two traits whose laws are the timing law.
ghost use Rattle.std.specs.Prelude.{◌≡◌, ℕ, pos, Bool, List};
ghost use Rattle.lists.specs.Items.{flag_at};
ghost use Rattle.tile_core.specs.Drawing.{Drawing};
ghost use Rattle.tile_core.specs.Interface.{IsInterface};
ghost use Rattle.tile_core.specs.Kinds.{interface};
ghost use Rattle.tile_core.specs.TimingLaw.{MeetsTimingLaw};

use crate::Kind;

/// A tile: a drawing of conductors in a box of 32 columns and `16 * LANES` rows that keeps the
/// timing law. A tile of one lane uses the first entry and the first exit alone; its second ones
/// are (0, 0), and their bits false.
pub trait Tile {
    /// The height in lanes, 1 or 2.
    const LANES: u32;
    /// The cells (x, y) where the tile is entered, the upper first.
    const ENTRIES: [(u32, u32); 2];
    /// The cells (x, y) where the tile is left, the upper first.
    const EXITS: [(u32, u32); 2];

    ghost LANES: { ℕ };

    ghost ENTRIES: { List (ℕ × ℕ) };

    ghost EXITS: { List (ℕ × ℕ) };

    ghost drawing: { Drawing };

    ghost answers: { Bool → Bool → List Bool };

    /// Returns whether the drawing has a conductor at column `x` and row `y`; it has none outside
    /// its box.
    fn cell(&self, x: u32, y: u32) -> bool
        ensures { result ≡ drawing (pos x) (pos y) };

    /// Returns which exits are heads at generation 31, if the entries that `lit` names are heads at
    /// generation 0.
    fn answer(&self, lit: [bool; 2]) -> [bool; 2]
        ensures { result ≡ answers (flag_at lit 0) (flag_at lit 1) };

    ghost form: { IsInterface
        (record { lanes = LANES; entries = ENTRIES; exits = EXITS; answer = answers }) };

    ghost law: { MeetsTimingLaw
        (record { lanes = LANES; entries = ENTRIES; exits = EXITS; answer = answers }) drawing };
}

/// A drawing for each kind of tile.
pub trait Library {
    ghost use Rattle.tile_core.specs.declared.kind.Kind.{Kind};

    ghost drawing: { Self → Kind → Drawing };

    /// Returns whether the drawing of `kind` has a conductor at column `x` and row `y`; it has none
    /// outside its box.
    fn cell(&self, kind: Kind, x: u32, y: u32) -> bool
        ensures { result ≡ drawing self.now kind (pos x) (pos y) };

    ghost law: { (library : Self) (kind : Kind)
        → MeetsTimingLaw (interface kind) (drawing library kind) };
}
