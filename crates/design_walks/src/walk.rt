// A walk over the places, with a stack of those to come instead of recursion.
ghost use Rattle.std.specs.Prelude.{◌≡◌, ◌<◌, ◌≤◌, ◌^◌, ◌++◌, [], ◌∷◌, length, IfOk, OnOk};
ghost use Rattle.netlist_meaning.specs.Weight.{weight};
ghost use Rattle.netlist_rules.specs.ModelFaults.{AreFaultless};
ghost use Rattle.design_walks.specs.Places.{ArePlaces};
ghost use Rattle.design_walks.specs.ToCome.{main_placed, placed_by, placed_by_lines};

use crate::placed::{Parent, PlacedModel};
use lists::List;
use model_index::NamedModels;
use netlist_core::{Design, Subckt};
use std::alloc::{AllocError, Global};

// The place that a line of the model at a place leads to.
fn inner_place(alloc: Global, place: &[u32], line: u32) -> Result<List<u32>, AllocError>
    ensures { IfOk result (λ inner. inner ≡ place.now ++ line ∷ []) }
{
    let mut inner = place.to_vec(alloc)?;
    inner.push(line)?;
    Ok(List::of(inner))
}

// Puts the place that a line leads to on the stack, if there is a model of the name on the line.
fn push_line(
    to_come: &mut Vec<PlacedModel>,
    alloc: Global,
    named: &NamedModels,
    outer: &PlacedModel,
    parent: Parent,
    line: &Subckt,
) -> Result<(), AllocError>
    requires { parent.line < 2 ^ 32 }
    ensures { OnOk result (
        to_come.new.items
        ≡ to_come.old.items
        ++ placed_by named.now outer.now parent.number parent.line line.now
        ) }
{
    match named.find(line.model.as_slice()) {
        None => Ok(()),
        Some(model) => {
            let place = inner_place(alloc, outer.place.as_slice(), parent.line as u32)?;
            to_come.push(PlacedModel {
                place,
                model,
                parent: Some(parent),
            })?;
            Ok(())
        }
    }
}

// Puts the places that the lines of the model at a place lead to on the stack, the last line's
// first.
fn push_inside(
    to_come: &mut Vec<PlacedModel>,
    alloc: Global,
    named: &NamedModels,
    outer: &PlacedModel,
    number: usize,
    lines: &[Subckt],
) -> Result<(), AllocError>
    requires { length lines.now ≤ 2 ^ 32 }
    ensures { OnOk result (
        to_come.new.items
        ≡ to_come.old.items ++ placed_by_lines named.now outer.now number 0 lines.now
        ) }
{
    for line in (0..lines.len()).rev() {
        push_line(
            to_come,
            alloc,
            named,
            outer,
            Parent { number, line },
            &lines[line],
        )?;
    }
    Ok(())
}

// Lists the places on the stack and inside them, each before those inside it.
fn list_places(
    listed: &mut Vec<PlacedModel>,
    to_come: &mut Vec<PlacedModel>,
    alloc: Global,
    design: &Design,
    named: &NamedModels,
) -> Result<(), AllocError>
    requires faultless { AreFaultless design.now.models }
    requires few { weight design.now < 2 ^ 32 }
    requires named { named.now ≡ design.now.models }
    requires listed { listed.old.items ≡ [] }
    requires to_come { to_come.old.items ≡ main_placed ∷ [] }
    ensures { OnOk result (ArePlaces design.now listed.new.items) }
{
    while let Some(placed) = to_come.pop() {
        let lines = design.models.get(placed.model).subckts.as_slice();
        push_inside(to_come, alloc, named, &placed, listed.len(), lines)?;
        listed.push(placed)?;
    }
    Ok(())
}

/// Lists the places of a design in order, each before those inside it. `named` is the index of the
/// design's models.
pub fn places(
    alloc: Global,
    design: &Design,
    named: &NamedModels,
) -> Result<List<PlacedModel>, AllocError>
    requires faultless { AreFaultless design.now.models }
    requires few { weight design.now < 2 ^ 32 }
    requires named { named.now ≡ design.now.models }
    ensures { IfOk result (ArePlaces design.now) }
{
    let mut listed = Vec::new(alloc);
    let mut to_come = Vec::new(alloc);
    to_come.push(PlacedModel {
        place: List::of(Vec::new(alloc)),
        model: 0,
        parent: None,
    })?;
    list_places(&mut listed, &mut to_come, alloc, design, named)?;
    Ok(List::of(listed))
}
