// The injection that keeps a band awake.
ghost use Rattle.ww_rule.specs.Due.{due_count};
ghost use Rattle.std.specs.Prelude.{◌≡◌, ◌+◌, ◌<◌, ◌^◌, drop, None, IfSome};
ghost use Rattle.band_core.specs.Band.{IsNextDue};

use crate::band::Band;

/// Returns the cell of the first injection that is left in the band, if it is due at the next
/// generation.
pub fn due_cell(band: &Band) -> Option<(u64, u64)>
    requires room { band.now.generation + 1 < 2 ^ 64 }
    ensures some { IfSome result (λ cell. IsNextDue band.now cell.0 cell.1) }
    ensures none { result ≡ None
        → due_count (band.now.generation + 1) (drop band.now.done band.now.injections.items) ≡ 0 }
{
    if band.done >= band.injections.len() {
        return None;
    }
    let injection = band.injections[band.done];
    if injection.generation == band.generation as u128 + 1 {
        return Some((injection.x, injection.y));
    }
    None
}
