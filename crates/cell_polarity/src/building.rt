// A list in which what is 1 at zero is kept as its complement.
ghost use Rattle.std.specs.Prelude.{◌≡◌, map, IfOk};
ghost use Rattle.cell_meaning.specs.Moved.{goes_to};
ghost use Rattle.cell_polarity.specs.Complements.{Complements};
ghost use Rattle.cell_polarity.specs.Raised.{HaveOwn, IsPorted};

use crate::PolarityError;
use crate::high::{all_gone, grow};
use crate::low::Lowered;
use cell_core::{CellList, Src};
use lists::List;
use std::alloc::Global;

/// A list, and the sources in it that stay the cells that they are.
#[derive(Drop)]
pub struct KeptList {
    pub list: CellList,
    pub kept: Vec<Src>,
}

// The new sources of the outputs, the latches' data, the nets and the kept sources.
#[derive(Drop)]
struct NewPorts {
    outs: Vec<Src>,
    latches: Vec<Src>,
    nets: Vec<Src>,
    kept: Vec<Src>,
}

// Where the ports, the nets and the kept sources of a list go.
fn ports_gone(
    alloc: Global,
    old: &CellList,
    kept: &[Src],
    news: &[Option<Src>],
) -> Result<NewPorts, PolarityError>
    ensures outs { IfOk result (λ p. p.outs.items ≡ map (goes_to news.now) old.now.outs) }
    ensures latches { IfOk result (λ p. p.latches.items ≡ map (goes_to news.now) old.now.latches) }
    ensures nets { IfOk result (λ p. p.nets.items ≡ map (goes_to news.now) old.now.nets) }
    ensures kept { IfOk result (λ p. p.kept.items ≡ map (goes_to news.now) kept.now) }
{
    let outs = all_gone(alloc, news, old.outs.as_slice())?;
    let latches = all_gone(alloc, news, old.latches.as_slice())?;
    let nets = all_gone(alloc, news, old.nets.as_slice())?;
    let kept = all_gone(alloc, news, kept)?;
    Ok(NewPorts {
        outs,
        latches,
        nets,
        kept,
    })
}

// The list with its ports, and its kept sources.
fn ported(
    alloc: Global,
    old: &CellList,
    kept: &[Src],
    list: CellList,
    news: &[Option<Src>],
) -> Result<KeptList, PolarityError>
    requires { HaveOwn old.now kept.now list news.now }
    ensures { IfOk result (λ c. IsPorted old.now kept.now list news.now c.list c.kept.items) }
{
    let Ok(ports) = ports_gone(alloc, old, kept, news) else {
        drop(list);
        return Err(PolarityError::NoMemory);
    };
    let list = CellList {
        inputs: list.inputs,
        cells: list.cells,
        outs: List::of(ports.outs),
        latches: List::of(ports.latches),
        starts: list.starts,
        nets: List::of(ports.nets),
    };
    Ok(KeptList {
        list,
        kept: ports.kept,
    })
}

/// Keeps what is 1 at zero as its complement: the cells of the list become at most twice as many
/// that are 0 at zero and do not read constant 1. Outputs, latches' data, nets and kept sources have
/// the bits that they had, and kept sources stay the cells that they are. So there is at most one
/// more cell, from constant 1, for each of these that is 1 at zero, and one for each kept source.
pub fn complemented(alloc: Global, list: &CellList, kept: &[Src]) -> Result<KeptList, PolarityError>
    ensures { IfOk result (λ c. Complements list.now kept.now c.list c.kept.items) }
{
    let mut low = Lowered::begin(alloc, list)?;
    match grow(alloc, list, kept, &mut low) {
        Ok(news) => ported(alloc, list, kept, low.list, &news),
        Err(error) => {
            drop(low);
            Err(error)
        }
    }
}
