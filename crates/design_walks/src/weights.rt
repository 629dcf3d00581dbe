// Weights of models with all that they place, each after those of the models that its lines place.
ghost use Rattle.std.specs.Prelude.{◌≡◌, ◌+◌, ◌<◌, min, length, sum_by, IfOk, IfErr};
ghost use Rattle.netlist_core.specs.OwnWeight.{own_weight};
ghost use Rattle.netlist_meaning.specs.Weight.{weight};
ghost use Rattle.netlist_rules.specs.ModelFaults.{AreFaultless};
ghost use Rattle.model_index.specs.Order.{IsModelOrder};
ghost use Rattle.model_index.specs.Reasons.{IsModelOrderRefusal};
ghost use Rattle.design_walks.specs.Weights.{line_weight, AreWeights};

use model_index::{ModelOrderError, NamedModels, order};
use netlist_core::{Design, Model, Subckt, weight_of};
use std::alloc::{AllocError, Global};

// The weight of the model that a line places.
fn weight_of_line(named: &NamedModels, weights: &[u64], line: &Subckt) -> u64
    ensures { result ≡ line_weight named.now weights.now line.now }
{
    match named.find(line.model.as_slice()) {
        Some(inner) => weights.get(inner).copied().unwrap_or(0),
        None => 0,
    }
}

// The weight of a model, by the weights of those that its lines place.
fn weight_at(named: &NamedModels, weights: &[u64], model: &Model) -> u64
    ensures { result
        ≡ min
        (own_weight model.now + sum_by (line_weight named.now weights.now) model.now.subckts)
        u64.MAX }
{
    let mut weight = weight_of(model);
    for line in model.subckts.as_slice() {
        weight = weight.saturating_add(weight_of_line(named, weights, line));
    }
    weight
}

// The weight of each model.
fn weights(
    alloc: Global,
    design: &Design,
    named: &NamedModels,
    order: &[usize],
) -> Result<Vec<u64>, AllocError>
    requires index { named.now ≡ design.now.models }
    requires order { IsModelOrder design.now.models order.now }
    ensures { IfOk result (λ weights. AreWeights design.now order.now
        (length order.now) weights.items) }
{
    let models = design.models.as_slice();
    let mut weights = vec![in alloc; 0; models.len()]?;
    for n in order {
        weights[*n] = weight_at(named, &weights, &models[*n]);
    }
    Ok(weights)
}

/// Returns the weight of a design, or the greatest u64 if it is more. `Circle` comes if a model
/// leads back to itself.
pub fn weight_or_circle(alloc: Global, design: &Design) -> Result<u64, ModelOrderError>
    ensures weight { IfOk result (λ w. w ≡ min (weight design.now) u64.MAX) }
    ensures refused { IfErr result (IsModelOrderRefusal design.now.models) }
{
    let models = design.models.as_slice();
    let named = NamedModels::new(alloc, models)?;
    let order = order(alloc, models, &named)?;
    let weights = weights(alloc, design, &named, order.as_slice());
    drop(order);
    drop(named);
    let weights = weights?;
    Ok(weights.first().copied().unwrap_or(0))
}

/// Returns the weight of a design without a fault, or the greatest u64 if it is more.
pub fn weight(alloc: Global, design: &Design) -> Result<u64, AllocError>
    requires { AreFaultless design.now.models }
    ensures { IfOk result (λ w. w ≡ min (weight design.now) u64.MAX) }
{
    match weight_or_circle(alloc, design) {
        Ok(weight) => Ok(weight),
        Err(ModelOrderError::NoMemory) => Err(AllocError),
        Err(ModelOrderError::Circle) => unreachable!(),
    }
}
