// Inputs of a placed model that have no pin.
ghost use Rattle.std.specs.Prelude.{◌≡◌, false, nat_le, Option, option_map, slice_get, IfOk};
ghost use Rattle.std.specs.Option.{option_map_or};
ghost use Rattle.netlist_core.specs.declared.model.Port as names;
ghost use Rattle.netlist_rules.specs.declared.fault.Fault as text;
ghost use Rattle.netlist_rules.specs.declared.fault.FaultKind.TheVariants.{PinMissing};
ghost use Rattle.netlist_rules.specs.ModelFaults.{fault_of_port, missing_pin, formals_of};
ghost use Rattle.model_words.specs.EarliestBroken.{earliest_broken};
ghost use Rattle.model_words.specs.Words.{earliest_word, earliest_after};
ghost use Rattle.pin_faults.specs.NotNamed.{ports_unless};
ghost use Rattle.lists.specs.Names.{holds_name};

use crate::lines::subckt_lines;
use crate::names::formals_of;
use crate::offers::offer_if;
use model_index::NamedModels;
use model_words::{Earliest, Fault, FaultKind, Word};
use netlist_core::{Model, Port, Subckt};
use std::alloc::{AllocError, Global};
use std::collections::BTreeSet;

// Offers the ports whose names are not in the set.
fn offer_others<'a>(earliest: &mut Earliest<'a>, names: &BTreeSet<&[u8]>, ports: &'a [Port])
    ensures { earliest_word earliest.new
        ≡ earliest_after (earliest_word earliest.old) (
        ports_unless (holds_name names.now) ports.now
        ) }
{
    for port in ports {
        let word = Word {
            line: port.line,
            name: port.name.as_slice(),
        };
        offer_if(earliest, !names.contains(word.name), word);
    }
}

// The fault, put on another line.
fn moved_to(line: u64, fault: Option<Fault>) -> Option<Fault>
    ensures { result ≡ option_map (λ (fault : text.Fault). record fault { line = line }) fault }
{
    match fault {
        None => None,
        Some(fault) => Some(Fault { line, ..fault }),
    }
}

// The fault of a line that has no pin for some input of the model that it names.
fn line_fault(
    alloc: Global,
    named: &NamedModels<'_>,
    line: &Subckt,
) -> Result<Option<Fault>, AllocError>
    ensures { IfOk result (λ found.
        found
        ≡ option_map (fault_of_port PinMissing) (slice_get (missing_pin named.now line.now) 0)
        ) }
{
    let Some(placed) = named.model(line.model.as_slice()) else {
        return Ok(None);
    };
    let formals = formals_of(alloc, line)?;
    let mut earliest = Earliest::new();
    offer_others(&mut earliest, &formals, placed.ins.as_slice());
    offer_others(&mut earliest, &formals, placed.clocks.as_slice());
    let found = earliest.fault(alloc, FaultKind::PinMissing)?;
    Ok(moved_to(line.line, found))
}

// Whether a fault stands on this line or before it.
fn is_up_to(fault: &Option<Fault>, line: u64) -> bool
    ensures { result ≡ option_map_or (λ (fault : text.Fault). nat_le fault.line line) fault.now
        false }
{
    match fault {
        None => false,
        Some(fault) => fault.line <= line,
    }
}

// The earlier of the first fault so far and that of a line. A line that does not stand before the
// first fault is not checked.
fn earlier_fault(
    alloc: Global,
    named: &NamedModels<'_>,
    line: &Subckt,
    first: Option<Fault>,
) -> Result<Option<Fault>, AllocError>
    ensures { IfOk result (λ found. (word : Option names.Port) →
        first ≡ option_map (fault_of_port PinMissing) word →
        found ≡ option_map (fault_of_port PinMissing)
        (earliest_after word (missing_pin named.now line.now))) }
{
    if is_up_to(&first, line.line) {
        return Ok(first);
    }
    let found = line_fault(alloc, named, line)?;
    Ok(found.or(first))
}

/// Finds the earliest subckt line that has no pin for some input of the model that it names. The
/// fault has the first such input, by its line in that model. `named` is the index of the models.
pub fn pin_missing(
    alloc: Global,
    models: &[Model],
    named: &NamedModels<'_>,
) -> Result<Option<Fault>, AllocError>
    requires { named.now ≡ models.now }
    ensures { IfOk result (λ found. found ≡ earliest_broken PinMissing models.now) }
{
    let mut first = None;
    for line in &subckt_lines(alloc, models)? {
        first = earlier_fault(alloc, named, line, first)?;
    }
    Ok(first)
}
