// Cuts: at most six sources of which a cell is a function.
use crate::network::Network;
use cell_core::Src;
use std::alloc::Global;

// The most leaves of a cut.
const MOST_LEAVES: usize = 6;

// The most cells between the leaves and the cell, the cell itself among them.
const MOST_INSIDE: usize = 32;

/// The sources of which a cell is a function (`leaves`), and the cells between them and it, itself
/// first (`inside`).
#[derive(Drop)]
pub struct Cut {
    pub leaves: Vec<Src>,
    pub inside: Vec<u32>,
    /// Whether memory was refused: then something is missing here.
    pub is_refused: bool,
}

impl Cut {
    // Whether a source would be a new leaf.
    fn is_new(&self, src: Src) -> bool {
        let is_free = match src {
            Src::Cell(i) => !self.inside.contains(&i),
            Src::Input(_) | Src::Latch(_) => true,
            Src::One | Src::Zero => false,
        };
        is_free && !self.leaves.contains(&src)
    }

    // How many new leaves come if a leaf is opened, which must be a cell.
    fn new_leaves(&self, network: &Network, leaf: Src) -> Option<usize> {
        let Src::Cell(i) = leaf else {
            return None;
        };
        let (a, b) = network.operands(i)?;
        let first = self.is_new(a);
        let second = a != b && self.is_new(b);
        Some(usize::from(first) + usize::from(second))
    }

    // The place of the leaf that brings the fewest new ones, and how many it brings.
    fn best_leaf(&self, network: &Network) -> Option<(usize, usize)> {
        let mut best: Option<(usize, usize)> = None;
        for (place, leaf) in self.leaves.iter().enumerate() {
            if let Some(count) = self.new_leaves(network, *leaf) {
                match best {
                    Some((_, least)) if least <= count => {}
                    _ => best = Some((place, count)),
                }
            }
        }
        best
    }

    fn add(&mut self, src: Src) {
        if self.is_new(src) {
            self.is_refused |= self.leaves.push(src).is_err();
        }
    }

    // Opens a cell: it is inside, and what it reads become leaves, as far as they are new.
    fn open(&mut self, network: &Network, number: u32) {
        self.is_refused |= self.inside.push(number).is_err();
        if let Some((a, b)) = network.operands(number) {
            self.add(a);
            self.add(b);
        }
    }

    // Opens the best leaf, if the leaves stay few enough, and returns whether it did.
    fn widen(&mut self, network: &Network) -> bool {
        let Some((place, more)) = self.best_leaf(network) else {
            return false;
        };
        let count = self.leaves.len();
        if place < count && count.saturating_add(more) <= MOST_LEAVES + 1 {
            if let Src::Cell(number) = self.leaves.remove(place) {
                self.open(network, number);
                return true;
            }
        }
        false
    }

    /// Makes the cut of a cell. First its operands are the leaves; then, while the leaves stay few
    /// enough, the leaf that brings the fewest new ones is opened.
    pub fn of(alloc: Global, network: &Network, number: u32) -> Cut {
        let mut cut = Cut {
            leaves: Vec::new(alloc),
            inside: Vec::new(alloc),
            is_refused: false,
        };
        cut.open(network, number);
        for _ in 1..MOST_INSIDE {
            if !cut.widen(network) {
                break;
            }
        }
        cut
    }
}
