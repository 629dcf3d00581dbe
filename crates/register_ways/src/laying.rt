// Wires of a bundle that are laid one after the other, from the innermost to the outermost, with bumps where they would
// come early.
//
// Wires whose bumps are one after the other are a group. Its first wire has its bumps first. Each of the others comes on
// outward of the bumps before its own, and turns inward behind them. The next group is outward of all these bumps.

use crate::bundle::{Bundle, Track};

// Rows of the least bump that makes a wire longer.
const LEAST_BUMP: u32 = 3;

// Columns from a bump to the next one.
const BUMP: u32 = 4;

// Columns from the first corner of a group's first wire to its bumps.
const FIRST: u32 = 3;

/// How a wire runs: so many rows outward of the circuit's edge. If it joins a group, it turns inward at place `turn`. Its
/// bumps begin at place `bumps`: `full` ones of the greatest height, and one of the height `rest` if this is not 0. The
/// corner behind its last bump may be cut by a cell more.
#[derive(Clone, Copy)]
pub struct Course {
    pub out: u32,
    pub turn: Option<u32>,
    pub bumps: u32,
    pub full: u32,
    pub rest: u32,
    pub is_cut: bool,
}

impl Course {
    // The place behind the bumps.
    fn behind(self) -> u32 {
        let bumps = self.full.saturating_add(self.rest.min(1));
        self.bumps.saturating_add(bumps.saturating_mul(BUMP))
    }

    // How many rows the wire takes outward of the circuit's edge.
    fn rows(self, high: u32) -> u32 {
        let bump = if self.turn.is_some() || self.full > 0 {
            high
        } else {
            self.rest
        };
        self.out.saturating_add(bump)
    }

    // Adds bumps that make the wire so many steps longer, or one more if the number is odd: then a corner is cut.
    fn with_bumps(self, high: u32, early: u32) -> Option<Course> {
        let more = early.saturating_add(early % 2);
        if more > 0 && high < LEAST_BUMP {
            return None;
        }
        let each = high.saturating_mul(2).saturating_sub(4).max(2);
        let left = more % each;
        Some(Course {
            full: more / each,
            rest: if left > 0 {
                (left / 2).saturating_add(2)
            } else {
                0
            },
            is_cut: early % 2 == 1,
            ..self
        })
    }
}

/// What comes of the next wire, or of all wires.
#[derive(Clone, Copy)]
pub enum Outcome<T> {
    Laid(T),
    /// A wire comes late at the period, and not at this one.
    Late(u32),
    /// There is no room for the bumps.
    NoRoom,
}

/// Wires of a bundle that are laid at a period. The bumps of the group with number `group` begin anew at place `at`, and
/// end at `end`.
#[derive(Drop)]
pub struct Laying<'a> {
    pub bundle: Bundle<'a>,
    period: u32,
    group: u32,
    at: u32,
    end: u32,
}

impl<'a> Laying<'a> {
    /// Begins with no wire.
    pub fn new(bundle: Bundle<'a>, period: u32) -> Laying<'a> {
        Laying {
            bundle,
            period,
            group: 0,
            at: 0,
            end: 0,
        }
    }

    // The course of a wire in the last group.
    fn course(&self, track: Track, place: u32, turn: Option<u32>) -> Outcome<Course> {
        let (bundle, high) = (self.bundle, self.bundle.high);
        let out = bundle.out(place, self.group);
        let (bumps, more) = match turn {
            Some(at) => (
                at.saturating_add(2),
                high.saturating_mul(2).saturating_sub(2),
            ),
            None => (track.first.saturating_add(FIRST), 0),
        };
        let steps = track.steps(bundle.frame, out).saturating_add(more);
        let Some(early) = track.early(steps, self.period) else {
            return Outcome::Late(track.least_period(steps));
        };
        let course = Course {
            out,
            turn,
            bumps,
            full: 0,
            rest: 0,
            is_cut: false,
        };
        match course.with_bumps(high, early) {
            Some(course) if course.behind() < self.end => Outcome::Laid(course),
            _ => Outcome::NoRoom,
        }
    }

    // The course of a wire that joins the last group.
    fn joined(&self, track: Track, place: u32) -> Outcome<Course> {
        if place == 0 || self.bundle.high == 0 {
            return Outcome::NoRoom;
        }
        self.course(track, place, Some(self.at))
    }

    // The course of a wire that begins a group.
    fn alone(&mut self, track: Track, place: u32) -> Outcome<Course> {
        self.group = self.group.saturating_add(place.min(1));
        self.end = track.last;
        self.course(track, place, None)
    }

    /// Returns the course of the next wire, with so many others inward of it.
    pub fn next(&mut self, place: u32) -> Outcome<Course> {
        let Some(track) = self.bundle.track(place) else {
            return Outcome::NoRoom;
        };
        let outcome = match self.joined(track, place) {
            Outcome::NoRoom => self.alone(track, place),
            outcome => outcome,
        };
        if let Outcome::Laid(course) = outcome {
            self.at = course.behind();
        }
        outcome
    }
}

/// Returns how many rows the wires of a bundle take at a period.
pub fn rows_at(bundle: Bundle, period: u32) -> Outcome<u32> {
    let mut laying = Laying::new(bundle, period);
    let (mut rows, mut least) = (0u32, 0u32);
    for place in 0..bundle.len() {
        match laying.next(place) {
            Outcome::Laid(course) => rows = rows.max(course.rows(bundle.high)),
            Outcome::Late(period) => least = least.max(period),
            Outcome::NoRoom => return Outcome::NoRoom,
        }
    }
    if least > 0 {
        Outcome::Late(least)
    } else {
        Outcome::Laid(rows)
    }
}
