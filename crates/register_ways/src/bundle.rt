// Wires that lead around one side of a circuit, in each other.

use crate::frame::{APART, Frame, Loop, Side};

/// The wires around a side, in the order in which they leave the circuit from north to south. Their highest bumps are
/// `high` rows high.
#[derive(Clone, Copy)]
pub struct Bundle<'a> {
    pub loops: &'a [Loop],
    pub frame: Frame,
    pub side: Side,
    pub high: u32,
}

/// The places between which a wire of a bundle leads around, and how many rows its ends are inward of the circuit's edge.
#[derive(Clone, Copy)]
pub struct Track {
    pub first: u32,
    pub last: u32,
    pub begin: u32,
    pub end: u32,
    cycles: u32,
    lag: u32,
}

impl Track {
    // How many generations a wire takes that runs so many rows outward, without bumps; each of its four corners is cut.
    pub fn steps(self, frame: Frame, out: u32) -> u32 {
        let leg = self.last.saturating_sub(self.first);
        let east = frame.east().saturating_sub(self.first);
        let west = self.last.saturating_sub(frame.west());
        let rows = out
            .saturating_mul(2)
            .saturating_add(self.begin)
            .saturating_add(self.end);
        leg.saturating_add(east)
            .saturating_add(west)
            .saturating_add(rows)
            .saturating_sub(4)
    }

    /// Returns how many generations a wire of so many steps comes early at a period; nothing if it comes late.
    pub fn early(self, steps: u32, period: u32) -> Option<u32> {
        self.cycles
            .saturating_mul(period)
            .checked_sub(self.lag.saturating_add(steps))
    }

    /// Returns the least period at which a wire of so many steps does not come late.
    pub fn least_period(self, steps: u32) -> u32 {
        self.lag.saturating_add(steps).div_ceil(self.cycles.max(1))
    }
}

impl<'a> Bundle<'a> {
    /// Returns how many wires there are.
    pub fn len(self) -> u32 {
        u32::try_from(self.loops.len()).unwrap_or(u32::MAX)
    }

    // The wire with so many others inward of it.
    fn loop_at(self, place: u32) -> Option<Loop> {
        let number = match self.side {
            Side::North => place as usize,
            Side::South => self
                .loops
                .len()
                .wrapping_sub(1)
                .wrapping_sub(place as usize),
        };
        self.loops.get(number).copied()
    }

    fn depth(self, row: u32) -> u32 {
        match self.side {
            Side::North => row,
            Side::South => self
                .frame
                .circuit
                .height
                .saturating_sub(1)
                .saturating_sub(row),
        }
    }

    /// Returns the track of the wire with so many others inward of it, if it is there.
    pub fn track(self, place: u32) -> Option<Track> {
        let found = self.loop_at(place)?;
        let beside = place.saturating_add(1).saturating_mul(APART);
        Some(Track {
            first: self
                .frame
                .lanes
                .saturating_mul(APART)
                .saturating_sub(beside),
            last: self.frame.west().saturating_add(beside),
            begin: self.depth(found.exit),
            end: self.depth(found.entry),
            cycles: found.cycles,
            lag: found.lag,
        })
    }

    /// Returns how many rows outward a wire runs that has so many wires and groups of bumps inward of it.
    pub fn out(self, place: u32, group: u32) -> u32 {
        place
            .saturating_add(1)
            .saturating_mul(APART)
            .saturating_add(group.saturating_mul(self.high))
    }
}
