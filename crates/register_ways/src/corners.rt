// The corners of a wire in a bundle, and the cells between them.

use crate::bundle::{Bundle, Track};
use crate::frame::Side;
use crate::laying::Course;
use std::alloc::AllocError;

/// A corner: its place along the bundle, and how many rows it is outward of the circuit's innermost row.
pub type Corner = (u32, u32);

// Adds the corners of a bump between a place and the one two columns further.
fn add_bump(corners: &mut Vec<Corner>, at: u32, out: u32, high: u32) -> Result<(), AllocError> {
    let (behind, top) = (at.saturating_add(2), out.saturating_add(high));
    corners.extend_from_slice(&[(at, out), (at, top), (behind, top), (behind, out)])
}

// Adds the corners of all bumps of a wire.
fn add_bumps(
    corners: &mut Vec<Corner>,
    course: Course,
    out: u32,
    high: u32,
) -> Result<(), AllocError> {
    let mut at = course.bumps;
    for _ in 0..course.full {
        add_bump(corners, at, out, high)?;
        at = at.saturating_add(4);
    }
    if course.rest > 0 {
        add_bump(corners, at, out, course.rest)?;
    }
    Ok(())
}

/// Adds the corners of a wire, from the circuit's exit to its entry.
pub fn add_corners(
    corners: &mut Vec<Corner>,
    bundle: Bundle,
    track: Track,
    course: Course,
) -> Result<(), AllocError> {
    let edge = bundle.frame.circuit.height;
    let (begin, end) = (
        edge.saturating_sub(track.begin),
        edge.saturating_sub(track.end),
    );
    let out = edge.saturating_add(course.out);
    corners.extend_from_slice(&[(bundle.frame.east(), begin), (track.first, begin)])?;
    match course.turn {
        Some(turn) => {
            let top = out.saturating_add(bundle.high);
            corners.extend_from_slice(&[(track.first, top), (turn, top), (turn, out)])?;
        }
        None => corners.push((track.first, out))?,
    }
    add_bumps(corners, course, out, bundle.high)?;
    corners.extend_from_slice(&[
        (track.last, out),
        (track.last, end),
        (bundle.frame.west(), end),
    ])
}

/// Where the corners of a bundle are in the box: the column of place 0, and the row behind the circuit's innermost one.
#[derive(Clone, Copy)]
pub struct Position {
    pub last: u32,
    pub row: u32,
    pub side: Side,
}

impl Position {
    fn cell(self, corner: Corner) -> (u32, u32) {
        let (along, out) = corner;
        let y = match self.side {
            Side::North => self.row.saturating_sub(out),
            Side::South => self.row.saturating_add(out).saturating_sub(1),
        };
        (self.last.saturating_sub(along), y)
    }
}

// The number that is so many steps from one on the way to another.
fn toward(from: u32, to: u32, steps: u32) -> u32 {
    if to >= from {
        from.saturating_add(steps).min(to)
    } else {
        from.saturating_sub(steps).max(to)
    }
}

// The cell so many steps from a corner on the way to the next one.
fn step(from: Corner, to: Corner, steps: u32) -> Corner {
    (toward(from.0, to.0, steps), toward(from.1, to.1, steps))
}

fn distance(from: Corner, to: Corner) -> u32 {
    from.0.abs_diff(to.0).saturating_add(from.1.abs_diff(to.1))
}

// Adds the cells between two corners.
fn add_leg(
    path: &mut Vec<(u32, u32)>,
    position: Position,
    from: Corner,
    to: Corner,
) -> Result<(), AllocError> {
    for steps in 1..distance(from, to) {
        path.push(position.cell(step(from, to, steps)))?;
    }
    Ok(())
}

// Adds the cells from a corner to the one after the next. The one between is cut by a cell more.
fn add_cut(
    path: &mut Vec<(u32, u32)>,
    position: Position,
    from: Corner,
    cut: Corner,
    to: Corner,
) -> Result<(), AllocError> {
    let (before, behind) = (step(cut, from, 1), step(cut, to, 1));
    add_leg(path, position, from, before)?;
    let (along, out) = (before.0.max(behind.0), before.1.max(behind.1));
    path.push(position.cell((along, out)))?;
    add_leg(path, position, behind, to)
}

// Adds the cells between corners.
fn add_legs(
    path: &mut Vec<(u32, u32)>,
    position: Position,
    corners: &[Corner],
) -> Result<(), AllocError> {
    for i in 1..corners.len() {
        add_leg(path, position, corners[i - 1], corners[i])?;
    }
    Ok(())
}

/// Adds the cells of a wire from its first corner to its last. The corners are no cells of it. That behind its last bump, the
/// fourth from the end, may be cut by a cell more.
pub fn add_cells(
    path: &mut Vec<(u32, u32)>,
    position: Position,
    corners: &[Corner],
    is_cut: bool,
) -> Result<(), AllocError> {
    let n = corners.len();
    if !is_cut || n < 6 {
        return add_legs(path, position, corners);
    }
    add_legs(path, position, &corners[..n - 4])?;
    add_cut(
        path,
        position,
        corners[n - 5],
        corners[n - 4],
        corners[n - 3],
    )?;
    add_legs(path, position, &corners[n - 3..])
}
