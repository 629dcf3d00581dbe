// The earliest line on a circle.
ghost use Rattle.std.specs.Prelude.{◌≡◌, ◌<◌, ◌+◌, ◌↔◌, IsTrue, length, IfOk};
ghost use Rattle.model_index.specs.Numbers.{subckts_of};
ghost use Rattle.model_circles.specs.Earliest.{IsNoLater, IsLookedAt, IsEarliestBefore, IsEarliestCircle};
ghost use Rattle.model_circles.specs.Ranks.{AreRanks};

use crate::ranking::ranks;
use crate::search::way_between;
use lists::List;
use model_index::{NamedModels, placed};
use netlist_core::Model;
use std::alloc::{AllocError, Global};

/// A circle of models, by number: `first` is the model in which the line stands. The line places
/// the first of `others`, each of these places the next, and the last places `first`; if there are
/// no others, the line places `first`.
#[derive(Drop)]
pub struct Circle {
    pub line: u64,
    pub first: usize,
    pub others: List<usize>,
}

// Whether a circle's line is this one or an earlier one.
fn is_no_later(best: &Option<Circle>, line: u64) -> bool
    ensures { IsTrue result ↔ IsNoLater best.now line }
{
    match best {
        Some(circle) => circle.line <= line,
        None => false,
    }
}

// The earlier of a circle and one of the k-th line of a model.
fn look_at(
    alloc: Global,
    models: &[Model],
    named: &NamedModels,
    ranks: &[usize],
    n: usize,
    k: usize,
    best: Option<Circle>,
) -> Result<Option<Circle>, AllocError>
    requires index { named.now ≡ models.now }
    requires ranks { AreRanks models.now ranks.now }
    requires model { n < length models.now }
    requires line { k < length (subckts_of models.now n) }
    ensures { IfOk result (IsLookedAt models.now n k best) }
{
    let line = models[n].subckts.get(k).line;
    if is_no_later(&best, line) {
        return Ok(best);
    }
    let Some(inner) = placed(models, named, n, k) else {
        return Ok(best);
    };
    if ranks[inner] != ranks[n] {
        return Ok(best);
    }
    match way_between(alloc, models, named, inner, n)? {
        None => Ok(best),
        Some(others) => Ok(Some(Circle {
            line,
            first: n,
            others: List::of(others),
        })),
    }
}

// The earliest of a circle and those of the lines of a model.
fn look_in(
    alloc: Global,
    models: &[Model],
    named: &NamedModels,
    ranks: &[usize],
    n: usize,
    best: Option<Circle>,
) -> Result<Option<Circle>, AllocError>
    requires index { named.now ≡ models.now }
    requires ranks { AreRanks models.now ranks.now }
    requires model { n < length models.now }
    requires best { IsEarliestBefore models.now n best }
    ensures { IfOk result (IsEarliestBefore models.now (n + 1)) }
{
    let mut best = best;
    for k in 0..models[n].subckts.len() {
        best = look_at(alloc, models, named, ranks, n, k, best)?;
    }
    Ok(best)
}

/// Finds a circle of the earliest line that lies on one, if a line does.
pub fn earliest(
    alloc: Global,
    models: &[Model],
    named: &NamedModels,
) -> Result<Option<Circle>, AllocError>
    requires { named.now ≡ models.now }
    ensures { IfOk result (IsEarliestCircle models.now) }
{
    let ranks = ranks(alloc, models, named)?;
    let mut best = None;
    for n in 0..models.len() {
        best = look_in(alloc, models, named, &ranks, n, best)?;
    }
    Ok(best)
}
