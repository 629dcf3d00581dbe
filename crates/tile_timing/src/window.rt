// One generation of a window: the rule on a slice of cells.
ghost use Rattle.std.specs.Prelude.{◌≡◌, ◌+◌, ◌-◌, ◌*◌, ◌/◌, ◌%◌, ◌<◌, ◌≤◌, pos, ◌-ℤ◌, length};
ghost use Rattle.ww_rule.specs.Wireworld.{count_head, heads_around, next_plane};
ghost use Rattle.tile_timing.specs.Window.{shown};

use ww_rule::State;

// 1 if the cell before column x and row y, which are counted from 1, is a head, and else 0.
fn head_before(cells: &[State], width: usize, x: usize, y: usize) -> usize
    requires wide { 0 < width }
    requires whole { length cells.now % width ≡ 0 }
    ensures counted { result ≡ count_head (shown cells.now width (pos x -ℤ pos 1)
        (pos y -ℤ pos 1)) }
    ensures few { result ≤ 1 }
{
    if x == 0 || y == 0 || x > width || y > cells.len() / width {
        return 0;
    }
    match cells[(y - 1) * width + (x - 1)] {
        State::Head => 1,
        State::Empty | State::Tail | State::Conductor => 0,
    }
}

// How many of the eight cells around column x and row y, counted from 0, are heads.
fn heads_near(cells: &[State], width: usize, x: usize, y: usize) -> usize
    requires wide { 0 < width }
    requires whole { length cells.now % width ≡ 0 }
    requires in_row { x < width }
    requires in_rows { y < length cells.now / width }
    ensures counted { result ≡ heads_around (shown cells.now width) (pos x) (pos y) }
    ensures few { result ≤ 8 }
{
    let above = head_before(cells, width, x, y)
        + head_before(cells, width, x + 1, y)
        + head_before(cells, width, x + 2, y);
    let beside = head_before(cells, width, x, y + 1) + head_before(cells, width, x + 2, y + 1);
    let below = head_before(cells, width, x, y + 2)
        + head_before(cells, width, x + 1, y + 2)
        + head_before(cells, width, x + 2, y + 2);
    above + beside + below
}

// What the cell at column x and row y becomes.
fn next_at(cells: &[State], width: usize, x: usize, y: usize) -> State
    requires wide { 0 < width }
    requires whole { length cells.now % width ≡ 0 }
    requires in_row { x < width }
    requires in_rows { y < length cells.now / width }
    ensures { result ≡ next_plane (shown cells.now width) (pos x) (pos y) }
{
    cells[y * width + x].next(heads_near(cells, width, x, y))
}

/// Computes one generation of Wireworld in a window. `old` has rows of `width` cells, row after
/// row, and all cells outside it are empty; `new` is overwritten with the next generation.
pub fn window_step(old: &[State], new: &mut [State], width: usize)
    requires wide { 0 < width }
    requires whole { length old.now % width ≡ 0 }
    requires same_length { length new.old ≡ length old.now }
    ensures next { shown new.new width ≡ next_plane (shown old.now width) }
    ensures same_length { length new.new ≡ length old.now }
{
    for (i, cell) in new.iter_mut().enumerate() {
        *cell = next_at(old, width, i % width, i / width);
    }
}
