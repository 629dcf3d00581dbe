// Columns of rows, as rows.
ghost use Rattle.std.specs.Prelude.{◌≡◌, ◌≢◌, ◌<◌, ◌≤◌, ℕ, length, All, IfOk};
ghost use Rattle.lists.specs.Items.{list_at};
ghost use Rattle.ww_rule.specs.Grid.{plane_of, row_cell, AreOfOneLength};
ghost use Rattle.ww_rule.specs.Turns.{turned, injection_turned};

use crate::cell_rows::CellRows;
use crate::pattern::{Injection, Pattern, State};
use std::alloc::{AllocError, Global};

// Makes these cells column x of rows, from the first row on.
fn put_column(rows: &mut CellRows, x: usize, column: &[State])
    requires many { length column.now ≤ length rows.old }
    requires long { (y : ℕ) → y < length column.now → x < length (list_at rows.old y) }
    ensures many { length rows.new ≡ length rows.old }
    ensures long { (y : ℕ) → length (list_at rows.new y) ≡ length (list_at rows.old y) }
    ensures here { (y : ℕ) → y < length column.now →
        row_cell (list_at rows.new y) x ≡ row_cell column.now y }
    ensures others { (u y : ℕ) → u ≢ x →
        row_cell (list_at rows.new y) u ≡ row_cell (list_at rows.old y) u }
{
    for (y, state) in column.iter().enumerate() {
        rows.put(x, y, *state);
    }
}

/// Turns rows of one length: their columns, from west to east, become rows.
pub fn columns_of(alloc: Global, rows: &CellRows) -> Result<CellRows, AllocError>
    requires { AreOfOneLength rows.now }
    ensures many { IfOk result (λ made. length made ≡ length (list_at rows.now 0)) }
    ensures long { IfOk result (λ made. All (λ row. length row ≡ length rows.now) made) }
    ensures cells { IfOk result (λ made. plane_of made ≡ turned (plane_of rows.now)) }
{
    let width = rows.row_or_none(0).len();
    let mut made = CellRows::blank(alloc, rows.len(), width)?;
    for y in 0..rows.len() {
        put_column(&mut made, y, rows.row(y));
    }
    Ok(made)
}

impl Injection {
    /// Exchanges the injection's column and row; its generation stays.
    pub fn turned(self) -> Injection
        ensures { result ≡ injection_turned self }
    {
        Injection {
            generation: self.generation,
            x: self.y,
            y: self.x,
        }
    }
}

impl Pattern {
    /// Turns the pattern: its columns, from west to east, become rows. A pattern of one column is
    /// turned without taking memory.
    pub fn turned(self, alloc: Global) -> Result<Pattern, AllocError>
        ensures width { IfOk result (λ made. made.width ≡ self.height) }
        ensures height { IfOk result (λ made. made.height ≡ self.width) }
        ensures cells { IfOk result (λ made. plane_of made.rows ≡ turned (plane_of self.rows)) }
    {
        let Pattern {
            width,
            height,
            rows,
        } = self;
        Ok(Pattern {
            width: height,
            height: width,
            rows: rows.turned(alloc)?,
        })
    }
}
