// Lines that name no model.
ghost use Rattle.std.specs.Prelude.{◌≡◌, IfOk};
ghost use Rattle.netlist_rules.specs.declared.fault.FaultKind.TheVariants.{NoSuchModel};
ghost use Rattle.netlist_rules.specs.ModelFaults.{missing_model};
ghost use Rattle.model_words.specs.EarliestBroken.{earliest_broken};
ghost use Rattle.model_words.specs.Words.{earliest_word, earliest_after};

use crate::lines::subckt_lines;
use crate::offers::offer_if;
use model_index::NamedModels;
use model_words::{Earliest, Fault, FaultKind, Word};
use netlist_core::{Model, Subckt};
use std::alloc::{AllocError, Global};

// Offers the model name of a line, if no model has it.
fn offer_line<'a>(earliest: &mut Earliest<'a>, named: &NamedModels<'_>, line: &'a Subckt)
    ensures { earliest_word earliest.new
        ≡ earliest_after (earliest_word earliest.old) (missing_model named.now line.now) }
{
    let word = Word {
        line: line.line,
        name: line.model.as_slice(),
    };
    offer_if(earliest, named.model(word.name).is_none(), word);
}

/// Finds the earliest subckt line that names no model; the fault has that name. `named` is the
/// index of the models.
pub fn missing_model(
    alloc: Global,
    models: &[Model],
    named: &NamedModels<'_>,
) -> Result<Option<Fault>, AllocError>
    requires { named.now ≡ models.now }
    ensures { IfOk result (λ found. found ≡ earliest_broken NoSuchModel models.now) }
{
    let mut earliest = Earliest::new();
    for line in &subckt_lines(alloc, models)? {
        offer_line(&mut earliest, named, line);
    }
    earliest.fault(alloc, FaultKind::NoSuchModel)
}
