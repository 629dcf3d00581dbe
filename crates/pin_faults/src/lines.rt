// The subckt lines of models.
ghost use Rattle.std.specs.Prelude.{◌≡◌, ◌++◌, flat_map, IfOk, OnOk};
ghost use Rattle.netlist_core.specs.declared.model.Model.{Model};
ghost use Rattle.pin_faults.specs.SubcktLines.{lines_now};

use netlist_core::{Model, Subckt};
use std::alloc::{AllocError, Global};

fn push_lines<'a>(lines: &mut Vec<&'a Subckt>, model: &'a Model) -> Result<(), AllocError>
    ensures { OnOk result (lines_now lines.new.items ≡
        lines_now lines.old.items ++ model.now.subckts) }
{
    for line in model.subckts.as_slice() {
        lines.push(line)?;
    }
    Ok(())
}

/// Collects the subckt lines of the models, model by model.
pub fn subckt_lines(alloc: Global, models: &[Model]) -> Result<Vec<&Subckt>, AllocError>
    ensures { IfOk result (λ lines.
        lines_now lines.items ≡ flat_map (λ (model : Model). model.subckts) models.now
        ) }
{
    let mut lines = Vec::new(alloc);
    for model in models {
        push_lines(&mut lines, model)?;
    }
    Ok(lines)
}
