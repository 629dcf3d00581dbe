// The cells of a plane that are no tails.
ghost use Rattle.std.specs.Prelude.{◌≡◌, length};
ghost use Rattle.lane_kernel.specs.Around.{IsFramed};

/// The cells of a plane and its tails, the cells that are not free. Where the words of the next
/// generation are marked, `tails` has the heads, which are its tails. A word column has `stride`
/// words.
#[derive(Clone, Copy)]
pub struct Free<'a> {
    pub tails: &'a [u64],
    pub cells: &'a [u64],
    pub stride: usize,
    pub ghost long: { length tails.now ≡ length cells.now },
    pub ghost framed: { IsFramed stride cells.now },
}
