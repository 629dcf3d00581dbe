// A pattern that is drawn item by item.
ghost use Rattle.std.specs.Prelude.{◌≡◌, ◌+◌, ◌<◌, ◌&&◌, nat_le, nat_lt, None, IfOk, IfErr};
ghost use Rattle.ww_rule.specs.Grid.{IsGrid};
ghost use Rattle.pattern_reading.specs.Items.{Cells, IsCounted};
ghost use Rattle.pattern_reading.specs.Pattern.{item_fault, run_fault};
ghost use Rattle.rle_read.specs.Texts.{item_of};
ghost use Rattle.rle_read.specs.declared.error.RleReadError.TheVariants.{NoMemory};
ghost use Rattle.rle_read.specs.Drawn.{drawn_of, blank_drawing, drawn_after, place_of};

use crate::error::RleReadError;
use crate::items::Item;
use pattern_reading::RleFaultKind;
use std::alloc::Global;
use ww_rule::{CellRows, State};

/// A pattern whose items are being read: its rows so far, and the column and the row at which the
/// next item begins. A column or a row past the greatest number is kept as the greatest, since no
/// cell of a box lies there.
#[derive(Drop)]
pub struct Drawing {
    pub width: u64,
    pub height: u64,
    pub rows: CellRows,
    pub x: u64,
    pub y: u64,
}

impl Drawing {
    /// Returns a drawing of empty cells, whose first item begins at its first cell.
    pub fn new(alloc: Global, width: u64, height: u64) -> Result<Drawing, RleReadError>
        ensures drawn { IfOk result (λ drawing. drawn_of drawing ≡ blank_drawing width height) }
        ensures failed { IfErr result (λ e. e ≡ NoMemory) }
    {
        let row_count = if width == 0 { 0 } else { height };
        let rows = CellRows::blank(alloc, width as usize, row_count as usize)?;
        Ok(Drawing {
            width,
            height,
            rows,
            x: 0,
            y: 0,
        })
    }

    // Whether so many cells from the next item's place on lie in the box.
    fn has_room(&self, count: u64) -> bool
        ensures { result
            ≡ (nat_le (self.now.x + count) self.now.width && nat_lt self.now.y self.now.height) }
    {
        count <= self.width && self.x <= self.width - count && self.y < self.height
    }

    /// Returns what is at fault in an item that begins at this place.
    pub fn item_fault(&self, item: Item) -> Option<RleFaultKind>
        ensures { result
            ≡ item_fault self.now.width self.now.height
            (place_of 0 (drawn_of self.now) (item_of item)) (
            item_of item
            ) }
    {
        match item {
            Item::NoItem => Some(RleFaultKind::BadItem),
            Item::Cells(_, State::Empty) => None,
            Item::Cells(count, _) => if self.has_room(count) {
                None
            } else {
                Some(RleFaultKind::CellOutside)
            },
            _ => None,
        }
    }

    // Draws a run of cells that is not at fault.
    fn draw_run(&mut self, count: u64, state: State)
        requires in_rows { IsGrid self.old.width self.old.height self.old.rows }
        requires counted { 0 < count }
        requires sound { run_fault
            self.old.width self.old.height (place_of 0 (drawn_of self.old) (Cells count state))
            count state
            ≡ None }
        ensures { drawn_of self.new ≡ drawn_after (Cells count state) (drawn_of self.old) }
    {
        match state {
            State::Empty => {}
            _ => {
                let (x, y) = (self.x as usize, self.y as usize);
                self.rows.fill(x, y, count as usize, state);
            }
        }
        self.x = self.x.saturating_add(count);
    }

    /// Draws an item that is not at fault.
    pub fn draw(&mut self, item: Item)
        requires in_rows { IsGrid self.old.width self.old.height self.old.rows }
        requires counted { IsCounted (item_of item) }
        requires sound { item_fault self.old.width self.old.height
            (place_of 0 (drawn_of self.old) (item_of item)) (
            item_of item
            )
            ≡ None }
        ensures { drawn_of self.new ≡ drawn_after (item_of item) (drawn_of self.old) }
    {
        match item {
            Item::Cells(count, state) => self.draw_run(count, state),
            Item::RowEnds(count) => {
                self.x = 0;
                self.y = self.y.saturating_add(count);
            }
            _ => {}
        }
    }
}
