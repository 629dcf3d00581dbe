// Where electrons stand at generation 0.
ghost use Rattle.std.specs.Prelude.{◌≡◌, ℕ, IsTrue};
ghost use Rattle.lane_core.specs.Starts.{are_starts_in_order, is_start_at};

use lists::List;

/// An edge between tiles that is lit at generation 0, named by a cell beside it: the one in which a
/// tile is entered there, or else the one in which a tile is left. A name further north comes
/// first, and of one row the one further west.
#[derive(Clone, Copy, PartialEq, Eq, PartialOrd, Ord)]
pub struct Start {
    pub y: u64,
    pub x: u64,
}

/// Names in order, each of them once, so that binary search finds them.
#[derive(Drop)]
pub struct Starts {
    pub list: List<Start>,
    pub ghost in_order: { IsTrue (are_starts_in_order list) },
}

impl Starts {
    /// Puts the names of a list in order, whatever their order in the list and however often they
    /// stand there.
    pub fn of(names: Vec<Start>) -> Starts
        ensures { (x y : ℕ) → is_start_at result.list x y ≡ is_start_at names.items x y }
    {
        let mut names = names;
        names.sort_unstable();
        names.dedup();
        Starts {
            list: List::of(names),
        }
    }

    /// Returns whether the cell at `x` and `y` is one of the names.
    pub fn has(&self, x: u64, y: u64) -> bool
        ensures { result ≡ is_start_at self.now.list x y }
    {
        self.list.as_slice().binary_search(&Start { y, x }).is_ok()
    }
}
