// The names of the models that are placed, and the number of each place's first net.
ghost use Rattle.std.specs.Prelude.{ℕ, ◌≡◌, ◌<◌, ◌^◌, List, None, Some, length, replicate, slice_get, IfOk};
ghost use Rattle.netlist_core.specs.Names.{Name};
ghost use Rattle.netlist_meaning.specs.Weight.{weight};
ghost use Rattle.netlist_rules.specs.ModelFaults.{AreFaultless};
ghost use Rattle.design_walks.specs.Places.{ArePlaces};
ghost use Rattle.netlist_flatten.specs.Numbered.{nets_before};
ghost use Rattle.netlist_flatten.specs.Tables.{AreNames};

use design_walks::{ModelNames, PlacedModel};
use netlist_core::Design;
use std::alloc::{AllocError, Global};

// Makes a table in which no model's names are known.
fn no_names<'a>(alloc: Global, count: usize) -> Result<Vec<Option<ModelNames<'a>>>, AllocError>
    ensures { IfOk result (λ names. names.items ≡ replicate count None) }
{
    let mut names = Vec::with_capacity(alloc, count)?;
    for _ in 0..count {
        names.push(None)?;
    }
    Ok(names)
}

/// Collects the names of each model that is placed, by the model's number.
pub fn names_by_model<'a>(
    alloc: Global,
    design: &'a Design,
    placed: &[PlacedModel],
) -> Result<Vec<Option<ModelNames<'a>>>, AllocError>
    requires { ArePlaces design.now placed.now }
    ensures { IfOk result (λ names. AreNames design.now placed.now names.items) }
{
    let mut names = no_names(alloc, design.models.len())?;
    for at in placed {
        if names[at.model].is_none() {
            names[at.model] = Some(ModelNames::of(alloc, design.models.get(at.model))?);
        }
    }
    Ok(names)
}

// How many names a model has.
fn count_of(names: &[Option<ModelNames<'_>>], model: usize) -> usize
    requires { model < length names.now }
    ensures { (own : List Name) → slice_get names.now model ≡ Some (Some own) →
        result ≡ length own }
{
    match &names[model] {
        None => 0,
        Some(own) => own.as_slice().len(),
    }
}

/// Returns the number of each place's first net.
pub fn firsts_of(
    alloc: Global,
    design: &Design,
    placed: &[PlacedModel],
    names: &[Option<ModelNames<'_>>],
) -> Result<Vec<u32>, AllocError>
    requires faultless { AreFaultless design.now.models }
    requires few { weight design.now < 2 ^ 32 }
    requires places { ArePlaces design.now placed.now }
    requires names { AreNames design.now placed.now names.now }
    ensures { IfOk result (λ firsts. (k : ℕ) → k < length placed.now
        → slice_get firsts.items k ≡ Some (length (nets_before design.now k))) }
{
    let mut firsts = Vec::with_capacity(alloc, placed.len())?;
    let mut first: u32 = 0;
    for at in placed {
        firsts.push(first)?;
        first += count_of(names, at.model) as u32;
    }
    Ok(firsts)
}
