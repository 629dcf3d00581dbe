// Windows: the tables of cells that are functions of a cut's leaves and do not read the cell of the
// cut.
use crate::cuts::Cut;
use crate::network::{Network, Role, operands};
use cell_core::{Cell, CellError, Src, net_word};
use std::alloc::Global;

// The number of known cells from which on a window spreads no further.
const MOST_KNOWN: usize = 40;

/// The words of cells over the leaves of one cut, and the order in which they became known.
#[derive(Drop)]
pub struct Window {
    words: Vec<Option<u64>>,
    leaves: Vec<(Src, u64)>,
    pub order: Vec<u32>,
    /// The word of the cell of the cut.
    pub own: Option<u64>,
    /// How many readers were visited since the window was cleared.
    pub visits: usize,
    cell: u32,
    /// Whether memory was refused: then something is missing here.
    pub is_refused: bool,
}

impl Window {
    /// Makes a window for networks of so many cells, in which no word is known.
    pub fn new(alloc: Global, cells: usize) -> Result<Window, CellError> {
        Ok(Window {
            words: vec![in alloc; None; cells]?,
            leaves: Vec::new(alloc),
            order: Vec::new(alloc),
            own: None,
            visits: 0,
            cell: 0,
            is_refused: false,
        })
    }

    /// Makes room for a cell that was added to the network.
    pub fn add_cell(&mut self) {
        self.is_refused |= self.words.push(None).is_err();
    }

    /// Returns the word of a source, if it is known. Those of the cell of the cut, and of cells
    /// that read it, are not.
    pub fn word(&self, src: Src) -> Option<u64> {
        match src {
            Src::One => Some(u64::MAX),
            Src::Zero => Some(0),
            Src::Cell(i) => match self.words.get(i as usize) {
                Some(known) => *known,
                None => None,
            },
            Src::Input(_) | Src::Latch(_) => self.leaf_word(src),
        }
    }

    fn leaf_word(&self, src: Src) -> Option<u64> {
        for (leaf, word) in &self.leaves {
            if *leaf == src {
                return Some(*word);
            }
        }
        None
    }

    fn set_word(&mut self, number: u32, word: Option<u64>) {
        if let Some(place) = self.words.get_mut(number as usize) {
            *place = word;
        }
    }

    // The word of a cell by those of its operands.
    fn word_of_cell(&self, cell: Cell) -> Option<u64> {
        let (a, b) = operands(cell);
        let (Some(a), Some(b)) = (self.word(a), self.word(b)) else {
            return None;
        };
        Some(match cell {
            Cell::Or(_, _) => a | b,
            Cell::Xor(_, _) => a ^ b,
            Cell::AndNot(_, _) => a & !b,
        })
    }

    fn has_word(&self, number: u32) -> bool {
        if number == self.cell {
            return self.own.is_some();
        }
        self.word(Src::Cell(number)).is_some()
    }

    // Finds the word of a cell, if those of its operands are known.
    fn add(&mut self, network: &Network, number: u32) {
        if self.has_word(number) {
            return;
        }
        let Some((cell, Role::Free | Role::Kept)) = network.role(number) else {
            return;
        };
        match self.word_of_cell(cell) {
            Some(word) if number == self.cell => self.own = Some(word),
            Some(word) => {
                self.set_word(number, Some(word));
                self.is_refused |= self.order.push(number).is_err();
            }
            None => {}
        }
    }

    // Adds the words of the leaves themselves.
    fn add_leaves(&mut self, leaves: &[Src]) {
        for place in 0..leaves.len().min(6) {
            let (leaf, word) = (leaves[place], net_word(place));
            self.is_refused |= self.leaves.push((leaf, word)).is_err();
            if let Src::Cell(i) = leaf {
                self.set_word(i, Some(word));
            }
        }
    }

    // Adds the words of the cells inside the cut, which are functions of the leaves.
    fn add_inside(&mut self, network: &Network, inside: &[u32]) {
        for _ in 0..inside.len() {
            self.add_all(network, inside);
            if self.own.is_some() {
                break;
            }
        }
    }

    // Adds the words of cells, from the last to the first.
    fn add_all(&mut self, network: &Network, cells: &[u32]) {
        for place in (0..cells.len()).rev() {
            self.add(network, cells[place]);
        }
    }

    // Adds the words of the cells that read a source.
    fn add_readers(&mut self, network: &Network, src: Src) {
        if let Some(readers) = network.readers(src) {
            self.visits = self.visits.saturating_add(readers.len());
            for reader in readers {
                self.add(network, *reader);
            }
        }
    }

    // Adds the words of the cells that read known cells, and so on, while these are few enough.
    fn spread(&mut self, network: &Network) {
        for place in 0..MOST_KNOWN {
            let known = self.order.len();
            if place >= known || known >= MOST_KNOWN {
                break;
            }
            let number = self.order[place];
            self.add_readers(network, Src::Cell(number));
        }
    }

    /// Finds the words over the leaves of a cut, in a window in which none is known.
    pub fn fill(&mut self, network: &Network, cut: &Cut, number: u32) {
        self.cell = number;
        self.add_leaves(&cut.leaves);
        self.add_inside(network, &cut.inside);
        for leaf in &cut.leaves {
            self.add_readers(network, *leaf);
        }
        self.spread(network);
    }

    // Forgets the words of the cells that became known.
    fn forget_cells(&mut self) {
        for _ in 0..self.order.len() {
            match self.order.pop() {
                Some(number) => self.set_word(number, None),
                None => break,
            }
        }
    }

    // Forgets the leaves, and the words of those that are cells.
    fn forget_leaves(&mut self) {
        for _ in 0..self.leaves.len() {
            match self.leaves.pop() {
                Some((Src::Cell(i), _)) => self.set_word(i, None),
                Some(_) => {}
                None => break,
            }
        }
    }

    /// Forgets all words.
    pub fn clear(&mut self) {
        self.forget_cells();
        self.forget_leaves();
        self.own = None;
        self.visits = 0;
    }
}
