// Whether all latches have one clock.
ghost use Rattle.std.specs.Prelude.{◌≡◌, ◌↔◌, ◌<◌, IsTrue, IfOk, IfSome, MatchOption, ⊤};
ghost use Rattle.netlist_meaning.specs.Flat.{IsInRange, IsNetId};
ghost use Rattle.netlist_rules.specs.FlatClocks.{HasSameFlatControl, HasSameFlatClock, HasOneFlatClock, IsFlatTwoClocks, flat_control_word};

use lists::{Bytes, copied};
use netlist_core::{Flat, FlatLatch, NetId, Trigger};
use netlist_meaning::{class_of, name_of_net};
use std::alloc::{AllocError, Global};

fn is_same_kind(a: Option<Trigger>, b: Option<Trigger>) -> bool
    ensures { IsTrue result ↔ (a ≡ b) }
{
    match (a, b) {
        (None, None) => true,
        (Some(Trigger::Rise), Some(Trigger::Rise)) => true,
        (Some(Trigger::Fall), Some(Trigger::Fall)) => true,
        _ => false,
    }
}

fn is_same_control(flat: &Flat, a: Option<NetId>, b: Option<NetId>) -> bool
    requires first { MatchOption a ⊤ (IsNetId flat.now) }
    requires second { MatchOption b ⊤ (IsNetId flat.now) }
    ensures { IsTrue result ↔ HasSameFlatControl flat.now a b }
{
    match (a, b) {
        (None, None) => true,
        (Some(a), Some(b)) => class_of(flat, a) == class_of(flat, b),
        _ => false,
    }
}

fn has_same_clock(flat: &Flat, a: &FlatLatch, b: &FlatLatch) -> bool
    requires first { MatchOption a.now.control ⊤ (IsNetId flat.now) }
    requires second { MatchOption b.now.control ⊤ (IsNetId flat.now) }
    ensures { IsTrue result ↔ HasSameFlatClock flat.now a.now b.now }
{
    is_same_kind(a.kind, b.kind) && is_same_control(flat, a.control, b.control)
}

/// Returns the first latch that differs from the first one in type or control, if there is one.
pub fn other_clock(flat: &Flat) -> Option<FlatLatch>
    requires { IsInRange flat.now }
    ensures found { MatchOption result (HasOneFlatClock flat.now) (λ found.
        IsFlatTwoClocks flat.now found.line (flat_control_word flat.now found.control)
        ) }
    ensures control { IfSome result (λ found. MatchOption found.control ⊤ (IsNetId flat.now)) }
{
    let latches = flat.latches.as_slice();
    let first = latches.first()?;
    for latch in latches {
        if !has_same_clock(flat, first, latch) {
            return Some(*latch);
        }
    }
    None
}

/// Returns the name of a control, or `-` if there is none.
pub fn control_word(alloc: Global, flat: &Flat, control: Option<NetId>) -> Result<Bytes, AllocError>
    requires { MatchOption control ⊤ (IsNetId flat.now) }
    ensures { IfOk result (λ word. word ≡ flat_control_word flat.now control) }
{
    match control {
        None => copied(alloc, b"-"),
        Some(net) => name_of_net(alloc, flat, net),
    }
}
