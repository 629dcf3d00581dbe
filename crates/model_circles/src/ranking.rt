// Ranks that are checked.
ghost use Rattle.std.specs.Prelude.{◌≡◌, ◌<◌, length, IsTrue, IfOk};
ghost use Rattle.model_circles.specs.Ranks.{NeverRisesAt, AreRanks};

use crate::components::component_ranks;
use model_index::{NamedModels, placed};
use netlist_core::Model;
use std::alloc::{AllocError, Global};

// Whether no line of a model leads to a greater rank.
fn never_rises_at(models: &[Model], named: &NamedModels, ranks: &[usize], n: usize) -> bool
    requires index { named.now ≡ models.now }
    requires ranks { length ranks.now ≡ length models.now }
    requires model { n < length models.now }
    ensures { IsTrue result → NeverRisesAt models.now ranks.now n }
{
    for line in 0..models[n].subckts.len() {
        if let Some(inner) = placed(models, named, n, line) {
            if ranks[inner] > ranks[n] {
                return false;
            }
        }
    }
    true
}

// Whether no line leads to a greater rank.
fn never_rise(models: &[Model], named: &NamedModels, ranks: &[usize]) -> bool
    requires index { named.now ≡ models.now }
    requires ranks { length ranks.now ≡ length models.now }
    ensures { IsTrue result → AreRanks models.now ranks.now }
{
    for n in 0..models.len() {
        if !never_rises_at(models, named, ranks, n) {
            return false;
        }
    }
    true
}

/// Returns ranks that do not rise along any line. They go by components, so most lines on no circle
/// lead to a lower rank.
pub fn ranks(alloc: Global, models: &[Model], named: &NamedModels) -> Result<Vec<usize>, AllocError>
    requires { named.now ≡ models.now }
    ensures { IfOk result (λ ranks. AreRanks models.now ranks.items) }
{
    let ranks = component_ranks(alloc, models, named)?;
    if never_rise(models, named, &ranks) {
        return Ok(ranks);
    }
    vec![in alloc; 0; models.len()]
}
