// An order of models, or a circle.
ghost use Rattle.std.specs.Prelude.{◌≡◌, IfOk, IfErr};
ghost use Rattle.model_index.specs.Order.{IsModelOrder};
ghost use Rattle.model_index.specs.Reasons.{IsModelOrderRefusal};

use crate::error::ModelOrderError;
use crate::links::links_of;
use crate::named::NamedModels;
use depth_walk::WalkError;
use lists::List;
use netlist_core::Model;
use std::alloc::Global;

/// Orders the models' numbers so that each comes after those of the models that its subckt lines
/// place. `named` is the index of the models; each line's name is looked up once. `Circle` comes if
/// a model leads back to itself.
#[tactic(auto, using(crate::proofs::Linked::stay, crate::proofs::Linked::model_order, crate::proofs::Circling::circular))]
pub fn order(
    alloc: Global,
    models: &[Model],
    named: &NamedModels,
) -> Result<List<usize>, ModelOrderError>
    requires { named.now ≡ models.now }
    ensures order { IfOk result (IsModelOrder models.now) }
    ensures refused { IfErr result (IsModelOrderRefusal models.now) }
{
    let links = links_of(alloc, models, named)?;
    match depth_walk::order(alloc, &links) {
        Ok(numbers) => Ok(numbers),
        Err(WalkError::NoMemory) => Err(ModelOrderError::NoMemory),
        Err(WalkError::Circle(_)) => Err(ModelOrderError::Circle),
    }
}
