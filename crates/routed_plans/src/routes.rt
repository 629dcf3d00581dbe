// The routed circuit of a flat netlist.
ghost use Rattle.std.specs.Prelude.{◌≡◌, ℕ, List, length, All, IfOk, IfSome, IsTrue};
ghost use Rattle.ww_rule.specs.Grid.{plane_of};
ghost use Rattle.netlist_meaning.specs.Flat.{IsInRange, IsWeighed};
ghost use Rattle.plan_carries.specs.Compiled.{ComputesFlat};
ghost use Rattle.netlist_plans.specs.Lists.{IsCompilable};
ghost use Rattle.route_lines.specs.GateLines.{AreGateLines};
ghost use Rattle.routed_circuits.specs.Tables.{ShowsListRuns};
ghost use Rattle.routed_plans.specs.Carried.{IsRoutedFor, text_of_routed};
ghost use Rattle.routed_plans.specs.Drawn.{AreAllDrawn};
ghost use Rattle.routed_plans.specs.Nets.{ShowsNetsOf};
ghost use Rattle.routed_plans.specs.Tables.{FitsPattern, NamesRouted};
ghost use Rattle.routed_plans.specs.Wanted.{IsWanted};
ghost use Rattle.cell_core.specs.declared.list.CellList.{CellList};
ghost use Rattle.routed_plans.specs.declared.nets.ShownNets.TheVariants as which;

use crate::RoutedPlanError;
use crate::best::{Best, best_drawn};
use crate::lines::lines_of_drawing;
use crate::nets::{SeenPort, ShownNets};
use crate::seen::{SeenDrawing, with_net_ports};
use crate::tables::{fits_pattern, port_table};
use crate::wanted::wanted_list;
use crate::whole::with_all_nets;
use cell_core::CellList;
use gate_library::Drawing;
use list_matching::run_alike;
use lists::Bytes;
use netlist_core::{Flat, Order};
use netlist_plans::cell_lists;
use pattern_reading::Ports;
use route_cells::{RouteError, cells_of};
use std::alloc::Global;
use strand_drawings::{Drawn, pattern_of};
use ww_rule::Pattern;

/// A routed circuit: the lines that name its gates and its wires, its pattern, and its port table.
#[derive(Drop)]
pub struct Routed {
    pub lines: Bytes,
    pub pattern: Pattern,
    pub ports: Ports,
}

// Whether the pattern and the table are a routed circuit of this drawing, and its cells run as those
// of the list.
fn is_list_drawn(
    alloc: Global,
    list: &CellList,
    pattern: &Pattern,
    ports: &Ports,
    drawn: &Drawn,
) -> Result<bool, RoutedPlanError>
    ensures { IfOk result (λ is_drawn. IsTrue is_drawn →
        ShowsListRuns (plane_of pattern.now.rows) ports.now list.now) }
{
    match cells_of(alloc, pattern, ports, &drawn.drawing) {
        Ok(found) => {
            let are_alike = run_alike(alloc, &found, list, drawn.latches.as_slice());
            drop(found);
            are_alike
        }
        Err(RouteError::NoMemory) => Err(RoutedPlanError::NoMemory),
        Err(_) => Ok(false),
    }
}

// Whether those nets of a list are drawn that are to be shown.
fn are_enough(nets: ShownNets, ports: &[Option<SeenPort>], list: &CellList) -> bool
    ensures { IsTrue result → nets ≡ which.All → AreAllDrawn ports.now (length list.now.nets) }
{
    match nets {
        ShownNets::Drawn => true,
        ShownNets::All => {
            ports.len() == list.nets.len() && ports.iter().all(|port| port.is_some())
        }
    }
}

// A drawing of a list in which the nets are seen that are to be shown.
fn seen_drawing(
    alloc: Global,
    list: &CellList,
    nets: ShownNets,
    drawn: Drawn,
) -> Result<Option<SeenDrawing>, RoutedPlanError> {
    let seen = with_net_ports(alloc, list, drawn)?;
    match nets {
        ShownNets::Drawn => Ok(Some(seen)),
        ShownNets::All => with_all_nets(alloc, list, seen),
    }
}

// The pattern of a drawing and its port table.
#[derive(Drop)]
struct Page {
    pattern: Pattern,
    ports: Ports,
}

// The pattern and the table of a drawing, if these can be written.
fn page_of(
    alloc: Global,
    flat: &Flat,
    drawing: &Drawing,
    seen: &[Option<SeenPort>],
) -> Result<Option<Page>, RoutedPlanError>
    requires { IsInRange flat.now }
    ensures names { IfOk result (λ o. IfSome o (λ page. NamesRouted flat.now seen.now page.ports)) }
    ensures fits { IfOk result (λ o. IfSome o (λ page. FitsPattern page.pattern page.ports)) }
{
    let Some(pattern) = pattern_of(alloc, drawing)? else {
        return Ok(None);
    };
    let ports = port_table(alloc, flat, drawing, seen)?;
    if fits_pattern(&pattern, &ports) {
        Ok(Some(Page { pattern, ports }))
    } else {
        drop(pattern);
        drop(ports);
        Ok(None)
    }
}

// Whether a page is that of the routed circuit that was drawn of a list, with lines of those of its nets
// whose ports are drawn.
fn is_page_drawn(
    alloc: Global,
    list: &CellList,
    seen: &[Option<SeenPort>],
    page: &Page,
    drawn: &Drawn,
) -> Result<bool, RoutedPlanError>
    ensures { IfOk result (λ is_drawn. IsTrue is_drawn → (wanted : CellList)
        × IsWanted seen.now wanted list.now
        × ShowsListRuns (plane_of page.now.pattern.rows) page.now.ports wanted) }
{
    match wanted_list(alloc, list, seen)? {
        Some(wanted) => {
            let is_drawn = is_list_drawn(alloc, &wanted, &page.pattern, &page.ports, drawn);
            drop(wanted);
            is_drawn
        }
        None => Ok(false),
    }
}

// The routed circuit that was drawn of a list, if it passes the tests.
fn checked(
    alloc: Global,
    flat: &Flat,
    list: &CellList,
    nets: ShownNets,
    drawn: &Drawn,
    seen: &[Option<SeenPort>],
) -> Result<Option<Routed>, RoutedPlanError>
    requires compilable { (order : List ℕ) × IsCompilable flat.now order }
    requires computes { ComputesFlat flat.now list.now }
    ensures routed { IfOk result (λ o. IfSome o (IsRoutedFor flat.now)) }
    ensures nets { IfOk result (λ o. IfSome o (λ routed.
        ShowsNetsOf nets (text_of_routed routed) flat.now)) }
    ensures lines { IfOk result (λ o. IfSome o (λ routed. AreGateLines routed.lines)) }
{
    if !are_enough(nets, seen, list) {
        return Ok(None);
    }
    let lines = lines_of_drawing(alloc, &drawn.drawing)?;
    let Some(page) = page_of(alloc, flat, &drawn.drawing, seen)? else {
        return Ok(None);
    };
    match is_page_drawn(alloc, list, seen, &page, drawn) {
        Ok(true) => {
            let Page { pattern, ports } = page;
            Ok(Some(Routed {
                lines,
                pattern,
                ports,
            }))
        }
        Ok(false) => {
            drop(page);
            Ok(None)
        }
        Err(error) => {
            drop(page);
            Err(error)
        }
    }
}

// The routed circuit of a netlist that is drawn of one of its lists of cells.
fn route_lists(
    alloc: Global,
    flat: &Flat,
    lists: &[CellList],
    nets: ShownNets,
) -> Result<Option<Routed>, RoutedPlanError>
    requires compilable { (order : List ℕ) × IsCompilable flat.now order }
    requires computes { All (ComputesFlat flat.now) lists.now }
    ensures routed { IfOk result (λ o. IfSome o (IsRoutedFor flat.now)) }
    ensures nets { IfOk result (λ o. IfSome o (λ routed.
        ShowsNetsOf nets (text_of_routed routed) flat.now)) }
    ensures lines { IfOk result (λ o. IfSome o (λ routed. AreGateLines routed.lines)) }
{
    let Some(best) = best_drawn(alloc, lists)? else {
        return Ok(None);
    };
    let Best { place, drawn } = best;
    let Some(list) = lists.get(place) else {
        drop(drawn);
        return Ok(None);
    };
    let Some(seen) = seen_drawing(alloc, list, nets, drawn)? else {
        return Ok(None);
    };
    let routed = checked(alloc, flat, list, nets, &seen.drawn, &seen.ports);
    drop(seen);
    routed
}

/// Draws a sound flat netlist as a routed circuit. `order` is an order of its covers in which each
/// cover comes after those that it reads. A search draws each of the netlist's lists of cells; of
/// these drawings the one with the least box times period is checked. There is none if the search
/// finds none, or if the check refuses it. The port table has a line for each input and each output,
/// and for each net that is drawn or, if all are to be shown, for all nets but the clock nets.
/// The lines name the gates and the wires of the drawing.
pub fn route_netlist(
    alloc: Global,
    flat: &Flat,
    order: &Order,
    nets: ShownNets,
) -> Result<Option<Routed>, RoutedPlanError>
    requires compilable { IsCompilable flat.now order.now.nodes }
    requires weighed { IsWeighed flat.now }
    ensures routed { IfOk result (λ o. IfSome o (IsRoutedFor flat.now)) }
    ensures nets { IfOk result (λ o. IfSome o (λ routed.
        ShowsNetsOf nets (text_of_routed routed) flat.now)) }
    ensures lines { IfOk result (λ o. IfSome o (λ routed. AreGateLines routed.lines)) }
{
    let lists = cell_lists(alloc, flat, order)?;
    let routed = route_lists(alloc, flat, lists.as_slice(), nets);
    drop(lists);
    routed
}
