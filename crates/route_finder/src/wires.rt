// The wires between gates.

use crate::error::FindError;
use gate_library::DrawnPort;
use ww_rule::{Pattern, State};

/// Which way a wire runs.
#[derive(Clone, Copy)]
pub enum Way {
    Unknown,
    Onward,
    Back,
}

/// An end of a wire: its port; the number of this input among those of all gates, each of which has two at most, or
/// `u32::MAX` for an output; the number of a time of the gate, and how many generations after it the port is lit; and
/// the number of the next wire at the gate.
#[derive(Clone, Copy)]
pub struct End {
    pub port: DrawnPort,
    pub input: u32,
    pub time: u32,
    pub after: u32,
    pub next: u32,
}

/// A wire between two ports, whose own cells are `size` cells of the board's path from place `start` on, and which way
/// it is known to run. A wire that runs back has had its ends change places.
#[derive(Clone, Copy)]
pub struct Link {
    pub from: End,
    pub to: End,
    pub start: u32,
    pub size: u32,
    pub way: Way,
}

/// What is at a gate: the number of the first of its wires, and how many wires and cells of the port table there are.
#[derive(Clone, Copy)]
pub struct Use {
    pub link: u32,
    pub count: u32,
}

/// What is known of an input: whether a wire leads to it or it is driven from outside, and how many ends of wires are
/// at it whose directions are not known.
#[derive(Clone, Copy)]
pub struct Input {
    pub is_fed: bool,
    pub open: u32,
}

/// The wires that are found so far. Each gate has one use, and two inputs. The inputs at which a wire may have found
/// its direction are to do. The first fault is noted, and whether memory ran out.
#[derive(Drop)]
pub struct Links {
    pub all: Vec<Link>,
    pub uses: Vec<Use>,
    pub inputs: Vec<Input>,
    pub todo: Vec<u32>,
    pub fault: Option<FindError>,
    pub is_short: bool,
}

impl Link {
    /// Returns the number of the wire after this one at a gate at which it is.
    pub fn next_at(&self, gate: u32) -> u32 {
        if self.from.port.gate == gate {
            self.from.next
        } else {
            self.to.next
        }
    }

    /// Returns by how much the time of its end is greater than that of its beginning if it is no period long.
    pub fn shift(&self) -> i64 {
        let length = i64::from(self.size).saturating_add(1);
        i64::from(self.from.after)
            .saturating_add(length)
            .saturating_sub(i64::from(self.to.after))
    }
}

impl Links {
    /// Makes room for what is known of so many gates.
    pub fn make_room(&mut self, gates: usize) {
        let nothing = Use {
            link: u32::MAX,
            count: 0,
        };
        let unknown = Input {
            is_fed: false,
            open: 0,
        };
        self.is_short |= self.uses.resize(gates, nothing).is_err()
            | self
                .inputs
                .resize(gates.saturating_mul(2), unknown)
                .is_err();
    }

    /// Notes a fault, if there is one and none was noted before.
    pub fn note(&mut self, fault: Option<FindError>) {
        if self.fault.is_none() {
            self.fault = fault;
        }
    }

    /// Returns the number of the first wire at a gate.
    pub fn first_at(&self, gate: u32) -> u32 {
        let place = gate as usize;
        if place < self.uses.len() {
            self.uses[place].link
        } else {
            u32::MAX
        }
    }
}

/// Returns the state of a cell.
pub fn state_at(pattern: &Pattern, cell: (u32, u32)) -> State {
    let row = pattern.rows.row_or_none(cell.1 as usize);
    let column = cell.0 as usize;
    if column < row.len() {
        row[column]
    } else {
        State::Empty
    }
}
