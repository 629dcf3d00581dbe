// Rows of words in planes.
ghost use Rattle.std.specs.Prelude.{◌≡◌, ◌<◌, ◌≤◌, ◌^◌, ℕ, [], true, false, length, None, IfSome};
ghost use Rattle.lists.specs.Items.{number_at};
ghost use Rattle.lane_kernel.specs.PlaneRows.{place};
ghost use Rattle.lane_kernel.specs.Rows.{is_set};

/// No words.
const NONE: &[u64] = &[];

/// A row of a plane whose word columns have `stride` words each: the r-th words of `columns` of
/// them. A row of no word columns stands for one that has no heads.
#[derive(Clone, Copy)]
pub struct PlaneRow<'a> {
    pub plane: &'a [u64],
    pub columns: usize,
    pub stride: usize,
    pub r: usize,
    pub ghost within: { (c : ℕ) → c < columns → place stride c r < length plane.now },
}

/// The rows of heads above and below a field.
#[derive(Clone, Copy)]
pub struct FacingRows<'a> {
    pub above: PlaneRow<'a>,
    pub below: PlaneRow<'a>,
}

impl<'a> PlaneRow<'a> {
    ghost use Rattle.band_rows.specs.Facing.{words_in};

    /// Returns a row of no word columns.
    pub fn none() -> PlaneRow<'a>
        ensures { words_in result ≡ [] }
    {
        PlaneRow {
            plane: NONE,
            columns: 0,
            stride: 0,
            r: 0,
        }
    }

    /// Returns the word in word column c.
    pub fn word(&self, c: usize) -> u64
        requires { c < self.now.columns }
        ensures { result ≡ number_at (words_in self.now) c }
    {
        self.plane[(c + 1) * self.stride + 1 + self.r]
    }

    /// Returns the column of a cell whose bit is set, if there is one.
    pub fn set_cell(&self) -> Option<usize>
        requires { self.now.columns ≤ 2 ^ 58 }
        ensures some { IfSome result (λ x. is_set (words_in self.now) x ≡ true) }
        ensures none { result ≡ None → (x : ℕ) → is_set (words_in self.now) x ≡ false }
    {
        for c in 0..self.columns {
            let word = self.word(c);
            if word != 0 {
                return Some(64 * c + word.trailing_zeros() as usize);
            }
        }
        None
    }
}
