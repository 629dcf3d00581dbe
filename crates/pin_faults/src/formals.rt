// Formals that are no ports.
ghost use Rattle.std.specs.Prelude.{◌≡◌, List, IfOk};
ghost use Rattle.netlist_rules.specs.declared.fault.FaultKind.TheVariants.{NoSuchPin};
ghost use Rattle.netlist_rules.specs.ModelFaults.{unknown_formals};
ghost use Rattle.model_words.specs.EarliestBroken.{earliest_broken};
ghost use Rattle.model_words.specs.Words.{earliest_word, earliest_after};
ghost use Rattle.netlist_core.specs.declared.model.Model.{Model};
ghost use Rattle.model_words.specs.Placed.{AreNamesOfPorts, ArePlain, KnowsPorts, has_port};
ghost use Rattle.pin_faults.specs.NotNamed.{formals_unless};

use crate::lines::subckt_lines;
use crate::offers::offer_if;
use model_words::{Earliest, Fault, FaultKind, PlacedPorts, PortNames, Word};
use netlist_core::{Model, Subckt};
use std::alloc::{AllocError, Global};

// Offers the formals of a line that are not among these names.
fn offer_others<'a>(earliest: &mut Earliest<'a>, names: &PortNames<'_>, line: &'a Subckt)
    ensures { (model : Model) → AreNamesOfPorts names.now model →
        earliest_word earliest.new ≡
        earliest_after (earliest_word earliest.old)
        (formals_unless (λ name. has_port name model) line.now) }
{
    for pin in line.pins.as_slice() {
        let word = Word {
            line: line.line,
            name: pin.formal.as_slice(),
        };
        offer_if(earliest, !names.has_port(word.name), word);
    }
}

// Offers the formals of a line that are no ports of the model that it names.
fn offer_line<'a>(earliest: &mut Earliest<'a>, placed: &PlacedPorts<'_, '_>, line: &'a Subckt)
    ensures { (models : List Model) → KnowsPorts placed.now models → ¬ ArePlain models →
        earliest_word earliest.new ≡
        earliest_after (earliest_word earliest.old) (unknown_formals models line.now) }
{
    if let Some(names) = placed.find(line.model.as_slice()) {
        offer_others(earliest, names, line);
    }
}

/// Finds the earliest formal that is no port of the model that its line names. `placed` has the
/// names of the models' ports.
pub fn unknown_formal(
    alloc: Global,
    models: &[Model],
    placed: &PlacedPorts<'_, '_>,
) -> Result<Option<Fault>, AllocError>
    requires { KnowsPorts placed.now models.now }
    ensures { IfOk result (λ found. found ≡ earliest_broken NoSuchPin models.now) }
{
    let mut earliest = Earliest::new();
    for line in &subckt_lines(alloc, models)? {
        offer_line(&mut earliest, placed, line);
    }
    earliest.fault(alloc, FaultKind::NoSuchPin)
}
