// The fault of a circle.
ghost use Rattle.std.specs.Prelude.{◌≡◌, ◌<◌, ◌∷◌, ℕ, List, All, length, map, IfOk, MatchOption};
ghost use Rattle.std.specs.List.{join_with_byte};
ghost use Rattle.netlist_rules.specs.Circles.{IsOnCircle, IsCircleFault};
ghost use Rattle.model_index.specs.Numbers.{name_at};
ghost use Rattle.model_circles.specs.Earliest.{IsCircle, IsFaultOf};

use crate::circle::{Circle, earliest};
use lists::List;
use model_index::{ModelOrderError, NamedModels, order};
use netlist_core::Model;
use netlist_rules::{Fault, FaultKind};
use std::alloc::{AllocError, Global};

// The names of models by number, with spaces between them.
fn joined_names(
    alloc: Global,
    models: &[Model],
    first: usize,
    others: &[usize],
) -> Result<Vec<u8>, AllocError>
    requires first { first < length models.now }
    requires others { All (λ n. n < length models.now) others.now }
    ensures { IfOk result (λ word.
        word.items ≡ join_with_byte 32 (map (name_at models.now) (first ∷ others.now))
        ) }
{
    let mut word = models[first].name.as_slice().to_vec(alloc)?;
    for n in others {
        word.push(b' ')?;
        word.extend_from_slice(models[*n].name.as_slice())?;
    }
    Ok(word)
}

// The fault of a circle, with the names of its models.
fn fault_of(alloc: Global, models: &[Model], circle: &Circle) -> Result<Fault, AllocError>
    requires { IsCircle models.now circle.now }
    ensures { IfOk result (IsFaultOf models.now circle.now) }
{
    Ok(Fault {
        kind: FaultKind::Recursive,
        line: circle.line,
        word: List::of(joined_names(alloc, models, circle.first, circle.others.as_slice())?),
    })
}

/// Returns the fault of the earliest subckt line that lies on a circle of models, with the names of
/// the models of one such circle, or `None` if no line does. `named` is the index of the models.
pub fn circle_fault(
    alloc: Global,
    models: &[Model],
    named: &NamedModels,
) -> Result<Option<Fault>, AllocError>
    requires { named.now ≡ models.now }
    ensures { IfOk result (λ found. MatchOption found ((line : ℕ) (names : List (List ℕ))
        → ¬ IsOnCircle models.now line names) (IsCircleFault models.now)) }
{
    match order(alloc, models, named) {
        Ok(_order) => return Ok(None),
        Err(ModelOrderError::NoMemory) => return Err(AllocError),
        Err(ModelOrderError::Circle) => {}
    }
    match earliest(alloc, models, named)? {
        None => Ok(None),
        Some(circle) => Ok(Some(fault_of(alloc, models, &circle)?)),
    }
}
