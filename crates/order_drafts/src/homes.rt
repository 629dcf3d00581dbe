// The lanes on which the inputs of a draft stand at the start.
use cell_core::CellError;
use std::alloc::Global;

/// The lane of each input, all distinct and above the loops, and how many lanes there are.
#[derive(Drop)]
pub struct Homes {
    pub ins: Vec<usize>,
    // the input that stands on each lane above the loops
    standing: Vec<Option<usize>>,
    pub lanes: usize,
}

impl Homes {
    /// Returns no homes.
    pub fn new(alloc: Global) -> Homes {
        Homes {
            ins: Vec::new(alloc),
            standing: Vec::new(alloc),
            lanes: 0,
        }
    }

    /// Makes these homes equal to others.
    pub fn copy(&mut self, other: &Homes) -> Result<(), CellError> {
        self.ins.clear();
        self.ins.extend_from_slice(&other.ins)?;
        self.standing.clear();
        self.standing.extend_from_slice(&other.standing)?;
        self.lanes = other.lanes;
        Ok(())
    }

    // The input that stands on a lane.
    fn input_on(&self, lane: usize) -> Option<usize> {
        *self.standing.get(lane)?
    }

    /// Returns whether an input stands on a lane.
    pub fn is_home(&self, input: usize, lane: usize) -> bool {
        self.input_on(lane) == Some(input)
    }

    /// Moves an input to a lane. Another input that stands there moves to the first one's old lane.
    pub fn place(&mut self, input: usize, lane: usize) {
        let Some(old) = self.ins.get(input).copied() else {
            return;
        };
        let other = self.input_on(lane);
        self.leave(old);
        if let Some(other) = other {
            self.put(other, old);
        }
        self.put(input, lane);
    }

    // Makes the lane free.
    fn leave(&mut self, lane: usize) {
        if let Some(standing) = self.standing.get_mut(lane) {
            *standing = None;
        }
    }

    // Puts the input on a free lane.
    fn put(&mut self, input: usize, lane: usize) {
        if let Some(home) = self.ins.get_mut(input) {
            *home = lane;
        }
        if let Some(standing) = self.standing.get_mut(lane) {
            *standing = Some(input);
        }
    }

    /// Returns the highest lane above the loops on which no input stands.
    pub fn dark_lane(&self) -> Option<usize> {
        for (lane, input) in self.standing.iter().enumerate() {
            if input.is_none() {
                return Some(lane);
            }
        }
        None
    }

    // Returns the lowest lane above `end` on which no input stands.
    fn free_lane(&self, end: usize) -> Option<usize> {
        for lane in (0..end.min(self.standing.len())).rev() {
            if self.standing[lane].is_none() {
                return Some(lane);
            }
        }
        None
    }

    // Sets the number of lanes, and spreads the inputs by their ranks over the `above` lanes that
    // stand above the loops.
    pub(crate) fn spread(
        &mut self,
        ranked: &[(usize, usize)],
        lanes: usize,
        above: usize,
    ) -> Result<(), CellError> {
        self.lanes = lanes;
        self.ins.resize(ranked.len(), 0)?;
        self.standing.resize(above, None)?;
        for (rank, (_, input)) in ranked.iter().enumerate() {
            self.put(*input, rank.saturating_mul(above) / ranked.len().max(1));
        }
        Ok(())
    }

    /// Sets the number of lanes, of which `above` stand above the loops. Inputs that would stand on
    /// loops' lanes go to free ones. Returns whether there are enough.
    pub fn resize(&mut self, lanes: usize, above: usize) -> Result<bool, CellError> {
        self.lanes = lanes;
        self.standing.resize(above, None)?;
        Ok(self.lift(above))
    }

    // Puts inputs that stand on loops' lanes on the lowest free ones above. Returns whether there
    // are enough. No lane from `end` on is free.
    fn lift(&mut self, above: usize) -> bool {
        let mut end = above;
        for input in 0..self.ins.len() {
            let home = self.ins.get(input).copied().unwrap_or(0);
            if home >= above {
                let Some(lane) = self.free_lane(end) else {
                    return false;
                };
                self.put(input, lane);
                end = lane;
            }
        }
        true
    }
}
