// Rows of cells of one length, row by row in one vector.
ghost use Rattle.std.specs.Prelude.{◌≡◌, ◌<◌, ◌≤◌, ◌+◌, ◌*◌, ◌^◌, [], ◌∷◌, ◌++◌, length, take, drop, slice_set, replicate, All, IfOk, OnErr};
ghost use Rattle.lists.specs.Items.{list_at};
ghost use Rattle.ww_rule.specs.declared.pattern.State.TheVariants.{Empty};
ghost use Rattle.ww_rule.specs.Cuts.{with_row, with_run};
ghost use Rattle.ww_rule.specs.Grid.{plane_of, AreOfOneLength};
ghost use Rattle.ww_rule.specs.Turns.{turned};

use crate::pattern::State;
use crate::turning::columns_of;
use lists::List;
use std::alloc::{AllocError, Global};
use std::marker::Model;

// The most rows that are kept, of any length.
const MOST_ROWS: usize = 0x7fff_ffff_ffff_ffff;

/// Rows of cells, all of one length, from north to south. Contracts see them as a list of rows; in
/// memory they are one vector, with a byte for each cell.
#[derive(Drop)]
pub struct CellRows {
    width: usize,
    count: usize,
    cells: Vec<State>,
}

impl Model for CellRows {
    ghost use Rattle.std.specs.Prelude.{List, ◌≡◌, ◌<◌, ◌*◌, ◌^◌, length};
    ghost use Rattle.ww_rule.specs.declared.pattern.State.{State};
    ghost use Rattle.ww_rule.specs.Cuts.{cut_rows};

    ghost Value = { List (List State) };

    ghost view = { λ r. cut_rows r.width r.count r.cells.items };

    ghost invariant = { λ r. (r.count * r.width ≡ length r.cells.items) × (r.count < 2 ^ 63) };
}

// Makes `count` empty cells.
fn empty_cells(alloc: Global, count: usize) -> Result<Vec<State>, AllocError>
    ensures { IfOk result (λ cells. cells.items ≡ replicate count Empty) }
{
    Ok(vec![in alloc; State::Empty; count]?)
}

// Row y of the cells, in rows of `width` cells each.
fn row_in(cells: &[State], width: usize, y: usize) -> &[State]
    requires { y * width + width ≤ length cells.now }
    ensures { result.now ≡ take width (drop (y * width) cells.now) }
{
    let start = y * width;
    &cells[start..start + width]
}

// Makes `count` cells of a row, from column x on, this state.
fn fill_run(row: &mut [State], x: usize, count: usize, state: State)
    requires in_row { x + count ≤ length row.old }
    ensures { row.new ≡ with_run row.old x count state }
{
    row[x..x + count].fill(state);
}

// Makes `count` cells of row y, from column x on, this state; the rows have `width` cells each.
fn fill_in(cells: &mut [State], width: usize, x: usize, y: usize, count: usize, state: State)
    requires in_cells { y * width + width ≤ length cells.old }
    requires in_row { x + count ≤ width }
    ensures { cells.new
        ≡ with_row cells.old width y (
        with_run (take width (drop (y * width) cells.old)) x count state
        ) }
{
    let start = y * width;
    fill_run(&mut cells[start..start + width], x, count, state);
}

// Makes the cell of a row at column x this state.
fn put_cell(row: &mut [State], x: usize, state: State)
    requires in_row { x < length row.old }
    ensures { row.new ≡ slice_set row.old x state }
{
    row[x] = state;
}

// Makes the cell of row y at column x this state; the rows have `width` cells each.
fn put_in(cells: &mut [State], width: usize, x: usize, y: usize, state: State)
    requires in_cells { y * width + width ≤ length cells.old }
    requires in_row { x < width }
    ensures { cells.new ≡ with_row cells.old width y
        (slice_set (take width (drop (y * width) cells.old)) x state) }
{
    let start = y * width;
    put_cell(&mut cells[start..start + width], x, state);
}

impl CellRows {
    /// Makes an empty list of rows, with room for `count` rows of `width` cells each. `AllocError`
    /// also comes if the number of cells is over the greatest `usize`.
    pub fn with_room(alloc: Global, width: usize, count: usize) -> Result<CellRows, AllocError>
        ensures { IfOk result (λ rows. rows ≡ []) }
    {
        let Some(room) = count.checked_mul(width) else {
            return Err(AllocError);
        };
        Ok(CellRows {
            width: 0,
            count: 0,
            cells: Vec::with_capacity(alloc, room)?,
        })
    }

    /// Makes `count` rows of `width` empty cells each. `AllocError` also comes if the number of
    /// cells is over the greatest `usize`, or that of the rows over the most that are kept.
    pub fn blank(alloc: Global, width: usize, count: usize) -> Result<CellRows, AllocError>
        ensures { IfOk result (λ rows. rows ≡ replicate count (replicate width Empty)) }
    {
        let Some(cells) = count.checked_mul(width) else {
            return Err(AllocError);
        };
        if count > MOST_ROWS {
            return Err(AllocError);
        }
        Ok(CellRows {
            width,
            count,
            cells: empty_cells(alloc, cells)?,
        })
    }

    /// Copies these rows, which are all of one length.
    pub fn of_rows(alloc: Global, rows: &[List<State>]) -> Result<CellRows, AllocError>
        requires { AreOfOneLength rows.now }
        ensures { IfOk result (λ made. made ≡ rows.now) }
    {
        let mut made = CellRows::with_room(alloc, 0, 0)?;
        for row in rows {
            made.push_row(row.as_slice())?;
        }
        Ok(made)
    }

    /// Copies the rows.
    pub fn copied(&self, alloc: Global) -> Result<CellRows, AllocError>
        ensures { IfOk result (λ copy. copy ≡ self.now) }
    {
        Ok(CellRows {
            width: self.width,
            count: self.count,
            cells: self.cells.to_vec(alloc)?,
        })
    }

    /// Returns how many rows there are.
    pub fn len(&self) -> usize
        ensures count { result ≡ length self.now }
        ensures few { length self.now < 2 ^ 63 }
    {
        self.count
    }

    /// Returns the cells of row y, from west to east.
    pub fn row(&self, y: usize) -> &[State]
        requires { y < length self.now }
        ensures { result.now ≡ list_at self.now y }
    {
        row_in(&self.cells, self.width, y)
    }

    /// Returns the cells of row y, or no cells if there is no such row.
    pub fn row_or_none(&self, y: usize) -> &[State]
        ensures { result.now ≡ list_at self.now y }
    {
        if y < self.len() { self.row(y) } else { &[] }
    }

    /// Adds a row below the others, of their length. If memory runs out, or there are as many rows
    /// as can be kept, the rows stay as they were.
    pub fn push_row(&mut self, row: &[State]) -> Result<(), AllocError>
        requires { All (λ other. length other ≡ length row.now) self.old }
        ensures pushed { IfOk result (λ _. self.new ≡ self.old ++ row.now ∷ []) }
        ensures kept { OnErr result (self.new ≡ self.old) }
    {
        if self.count >= MOST_ROWS {
            return Err(AllocError);
        }
        self.cells.extend_from_slice(row)?;
        self.width = row.len();
        self.count += 1;
        Ok(())
    }

    /// Makes `count` cells, from column x of row y on, this state.
    pub fn fill(&mut self, x: usize, y: usize, count: usize, state: State)
        requires in_rows { y < length self.old }
        requires in_row { x + count ≤ length (list_at self.old y) }
        ensures { self.new ≡ slice_set self.old y (with_run (list_at self.old y) x count state) }
    {
        fill_in(&mut self.cells, self.width, x, y, count, state);
    }

    /// Makes the cell of column x and row y this state.
    pub fn put(&mut self, x: usize, y: usize, state: State)
        requires in_rows { y < length self.old }
        requires in_row { x < length (list_at self.old y) }
        ensures { self.new ≡ slice_set self.old y (slice_set (list_at self.old y) x state) }
    {
        put_in(&mut self.cells, self.width, x, y, state);
    }

    /// Turns the rows: their columns, from west to east, become rows. Rows of one cell each are
    /// turned without taking memory.
    pub fn turned(self, alloc: Global) -> Result<CellRows, AllocError>
        ensures many { IfOk result (λ made. length made ≡ length (list_at self 0)) }
        ensures long { IfOk result (λ made. All (λ row. length row ≡ length self) made) }
        ensures cells { IfOk result (λ made. plane_of made ≡ turned (plane_of self)) }
    {
        if self.width != 1 || self.count == 0 {
            return columns_of(alloc, &self);
        }
        let CellRows { count, cells, .. } = self;
        Ok(CellRows {
            width: count,
            count: 1,
            cells,
        })
    }
}
