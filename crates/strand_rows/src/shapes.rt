// The cells of tiles, column by column: rows that count from that of the upper entry.

use strand_core::TileKind;

/// Returns how many columns the exits of a tile are east of its entries.
pub fn wide(kind: TileKind) -> u32 {
    match kind {
        TileKind::Or | TileKind::Fork => 2,
        _ => 4,
    }
}

// The row in a column, or 0 outside.
fn row_at(rows: &[i32], column: u32) -> i32 {
    if (column as usize) < rows.len() {
        rows[column as usize]
    } else {
        0
    }
}

// How many rows high the sides of a bump are, but for one.
fn half_of(extra: u32) -> i32 {
    i32::try_from(extra / 2).unwrap_or(0).min(1 << 16)
}

fn bump_row(extra: u32, column: u32) -> i32 {
    let side = half_of(extra).saturating_add(1).saturating_neg();
    match column {
        1 | 3 => side,
        2 => side.saturating_sub(1),
        _ => 0,
    }
}

/// Returns the row of a tile's northernmost cell in a column.
pub fn upper_row(kind: TileKind, column: u32) -> i32 {
    match kind {
        TileKind::Cross => row_at(&[0, 1, 2, 1, 2], column),
        TileKind::Xor => row_at(&[0, 1, 2, 2, 3], column),
        TileKind::AndNot => row_at(&[0, 1, 2, 3, 4], column),
        TileKind::AndNotBelow => row_at(&[0, 1, 1, 1, 2], column),
        TileKind::Or => row_at(&[0, 1, 2], column),
        TileKind::Fork => row_at(&[0, -1, -2], column),
        TileKind::Bump(extra) => bump_row(extra, column),
    }
}

/// Returns the row of the southernmost cell of a tile with two entries in a column, but for the column of its exit if
/// it has one alone; and that of a fork's lower exit.
pub fn lower_row(kind: TileKind, column: u32) -> i32 {
    match kind {
        TileKind::Cross => row_at(&[6, 5, 4, 5, 4], column),
        TileKind::Xor => row_at(&[6, 5, 4, 4, 3], column),
        TileKind::AndNot => row_at(&[6, 5, 5, 5, 4], column),
        TileKind::AndNotBelow => row_at(&[6, 5, 4, 3, 2], column),
        TileKind::Or => row_at(&[4, 3, 2], column),
        TileKind::Fork => row_at(&[0, 1, 2], column),
        TileKind::Bump(_) => 0,
    }
}

/// Returns how many rows the southernmost cell of a tile with one entry is south of the northernmost one in a column.
pub fn depth(kind: TileKind, column: u32) -> i32 {
    match (kind, column) {
        (TileKind::Fork, 1) => 2,
        (TileKind::Bump(extra), 1 | 3) => half_of(extra),
        _ => 0,
    }
}
