// Rows of text as tests on cells.
ghost use Rattle.std.specs.Prelude.{◌≡◌, ◌-◌, ◌<◌, pos};
ghost use Rattle.tile_library.specs.Drawings.{drawn_rows};
ghost use Rattle.tile_library.specs.RowRuns.{IsRowRun};
ghost use Rattle.tile_timing.specs.Mirror.{mirrored_drawing};

/// Returns whether the rows have a conductor at column `x` and row `y`.
pub fn is_drawn(rows: &[[u8; 32]], x: u32, y: u32) -> bool
    ensures { result ≡ drawn_rows rows.now (pos x) (pos y) }
{
    match rows.get(y as usize) {
        Some(row) => row.get(x as usize) == Some(&b'C'),
        None => false,
    }
}

/// Does what `is_drawn` does for the rows with west and east exchanged.
pub fn is_drawn_mirrored(rows: &[[u8; 32]], x: u32, y: u32) -> bool
    ensures { result ≡ mirrored_drawing (drawn_rows rows.now) (pos x) (pos y) }
{
    x <= 31 && is_drawn(rows, 31 - x, y)
}

/// Returns whether a cell is a conductor, and how many cells from it eastward, within the box, are
/// all so.
pub fn run_from(rows: &[[u8; 32]], x: u32, y: u32) -> (bool, u32)
    requires { x < 32 }
    ensures { IsRowRun (λ x. drawn_rows rows.now (pos x) (pos y)) x (32 - x) result }
{
    let row = match rows.get(y as usize) {
        Some(row) => row,
        None => return (false, 32 - x),
    };
    let first = row[x as usize];
    for end in x + 1..32 {
        if row[end as usize] != first {
            return (first == b'C', end - x);
        }
    }
    (first == b'C', 32 - x)
}

/// Does what `run_from` does for the rows with west and east exchanged.
pub fn run_from_mirrored(rows: &[[u8; 32]], x: u32, y: u32) -> (bool, u32)
    requires { x < 32 }
    ensures { IsRowRun (λ x. mirrored_drawing (drawn_rows rows.now) (pos x) (pos y)) x
        (32 - x) result }
{
    let drawn = is_drawn_mirrored(rows, x, y);
    for end in x + 1..32 {
        if is_drawn_mirrored(rows, end, y) != drawn {
            return (drawn, end - x);
        }
    }
    (drawn, 32 - x)
}
