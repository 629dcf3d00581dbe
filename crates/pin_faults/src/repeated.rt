// Formals that a line names twice.
ghost use Rattle.std.specs.Prelude.{◌≡◌, IfOk, OnOk};
ghost use Rattle.netlist_rules.specs.declared.fault.FaultKind.TheVariants.{PinTwice};
ghost use Rattle.netlist_rules.specs.Drivers.{repeats};
ghost use Rattle.netlist_rules.specs.ModelFaults.{formals_of};
ghost use Rattle.model_words.specs.EarliestBroken.{earliest_broken};
ghost use Rattle.model_words.specs.Words.{earliest_word, earliest_after};

use crate::lines::subckt_lines;
use crate::offers::offer_if;
use model_words::{Earliest, Fault, FaultKind, Word};
use netlist_core::{Model, Subckt};
use std::alloc::{AllocError, Global};
use std::collections::BTreeSet;

// Offers the formals that a line has already named.
fn offer_line<'a>(
    alloc: Global,
    earliest: &mut Earliest<'a>,
    line: &'a Subckt,
) -> Result<(), AllocError>
    ensures { OnOk result (
        earliest_word earliest.new
        ≡ earliest_after (earliest_word earliest.old) (repeats (formals_of line.now))
        ) }
{
    let mut seen = BTreeSet::new(alloc);
    for pin in line.pins.as_slice() {
        let word = Word {
            line: line.line,
            name: pin.formal.as_slice(),
        };
        let is_new = seen.insert(word.name)?;
        offer_if(earliest, !is_new, word);
    }
    Ok(())
}

/// Finds the earliest formal that its line has already named.
pub fn pin_twice(alloc: Global, models: &[Model]) -> Result<Option<Fault>, AllocError>
    ensures { IfOk result (λ found. found ≡ earliest_broken PinTwice models.now) }
{
    let mut earliest = Earliest::new();
    for line in &subckt_lines(alloc, models)? {
        offer_line(alloc, &mut earliest, line)?;
    }
    earliest.fault(alloc, FaultKind::PinTwice)
}
