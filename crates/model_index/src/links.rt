// What each model places, by number.
ghost use Rattle.std.specs.Prelude.{ℕ, ◌≡◌, ◌<◌, length, get_or, None, IfOk};
ghost use Rattle.model_index.specs.Links.{AreLines};
ghost use Rattle.model_index.specs.Numbers.{number_placed};

use crate::named::NamedModels;
use crate::numbers::placed;
use lists::List;
use netlist_core::Model;
use std::alloc::{AllocError, Global};

// The numbers of the models that the subckt lines of a model place, in order.
fn lines_of(
    alloc: Global,
    models: &[Model],
    named: &NamedModels,
    n: usize,
) -> Result<List<Option<usize>>, AllocError>
    requires index { named.now ≡ models.now }
    requires model { n < length models.now }
    ensures { IfOk result (λ numbers. (k : ℕ) →
        get_or numbers k None ≡ number_placed models.now n k) }
{
    let count = models[n].subckts.len();
    let mut numbers = Vec::with_capacity(alloc, count)?;
    for k in 0..count {
        numbers.push(placed(models, named, n, k))?;
    }
    Ok(List::of(numbers))
}

/// Returns the numbers of the models that the subckt lines of each model place.
pub fn links_of(
    alloc: Global,
    models: &[Model],
    named: &NamedModels,
) -> Result<Vec<List<Option<usize>>>, AllocError>
    requires { named.now ≡ models.now }
    ensures { IfOk result (λ links. AreLines models.now links.items) }
{
    let mut links = Vec::with_capacity(alloc, models.len())?;
    for n in 0..models.len() {
        links.push(lines_of(alloc, models, named, n)?)?;
    }
    Ok(links)
}
