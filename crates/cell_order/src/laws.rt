//! What lists that compute alike have in common.
ghost use Rattle.cell_order.specs.Alike.{AlikeIsPlanned};

/// A plan that computes one of two lists that compute alike computes the other.
pub fn alike_is_planned()
    ensures { AlikeIsPlanned }
{}
