// The letters of cells that bands show.
ghost use Rattle.std.specs.Prelude.{◌≡◌, ◌<◌, length};

use crate::pages::Page;
use band_core::Bands;
use pattern_writing::tag_of;

/// Returns the letter of a cell of the pattern, at the generation of its band.
pub fn letter_at(bands: &Bands, height: u32, x: u64, y: u64) -> u8
    requires height { height ≡ bands.now.height }
    requires column { x < bands.now.grid.width }
    requires row { y < length bands.now.grid.rows }
{
    let count = bands.bands();
    let b = y as usize / height as usize;
    if b < count {
        tag_of(bands.cell(b, x, y))
    } else {
        b'?'
    }
}

/// Appends a row of the pattern, at the generation of its band.
pub fn push_row(page: &mut Page, bands: &Bands, height: u32, width: u64, y: u64)
    requires height { height ≡ bands.now.height }
    requires width { width ≡ bands.now.grid.width }
    requires row { y < length bands.now.grid.rows }
{
    for x in 0..width {
        page.push_byte(letter_at(bands, height, x, y));
    }
}
