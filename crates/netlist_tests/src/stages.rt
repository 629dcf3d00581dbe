// Writes the stages of a netlist, and compares them with the tour.
ghost use Rattle.std.specs.Prelude.{ℕ, List};
ghost use Rattle.netlist_text.specs.NetlistText.{IsNetlist};
ghost use Rattle.netlist_text.specs.Parts.{AreParts};

use crate::pages::Page;
use crate::tour::{CELLS, FLAT, LANES};
use cell_core::CellList;
use lane_core::{Column, Instr, Plan};
use netlist_core::{Flat, FlatLatch, FlatPort, Node};
use netlist_plans::plan_netlist;
use netlist_text::{Netlist, netlist_of};
use std::fmt::Debug;

/// The netlist of examples/toggle.blif.
pub const TOGGLE: &[u8] =
    b".model toggle\n.inputs en\n.outputs q\n.latch n q 0\n.names en q n\n10 1\n01 1\n.end\n";

// Appends the name of the net with this number, or nothing if there is none.
fn push_name(page: &mut Page, flat: &Flat, net: usize) {
    if let Some(known) = flat.nets.as_slice().get(net) {
        page.push(known.name.as_slice());
    }
}

fn push_node(page: &mut Page, flat: &Flat, number: usize, node: &Node) {
    page.push_start(b"cover", number);
    push_name(page, flat, node.out.0 as usize);
    page.push(b" of");
    for net in node.ins.as_slice() {
        page.push(b" ");
        push_name(page, flat, net.0 as usize);
    }
    page.push(b", line ");
    page.push_number(node.line);
    page.push(b"\n");
}

// Appends a line for a net, with the kind and the number of the item that the net belongs to.
fn push_line(page: &mut Page, flat: &Flat, what: &[u8], number: usize, net: usize) {
    page.push_start(what, number);
    push_name(page, flat, net);
    page.push(b"\n");
}

fn push_ports(page: &mut Page, flat: &Flat, what: &[u8], ports: &[FlatPort]) {
    for number in 0..ports.len() {
        push_line(page, flat, what, number, ports[number].net.0 as usize);
    }
}

fn push_latch(page: &mut Page, flat: &Flat, number: usize, latch: &FlatLatch) {
    page.push_start(b"latch", number);
    push_name(page, flat, latch.input.0 as usize);
    page.push(b" to ");
    push_name(page, flat, latch.output.0 as usize);
    page.push(b", init ");
    page.push_number(latch.init as u64);
    page.push(b"\n");
}

// Appends the weight of a flat netlist, its nets, ports, covers and latches.
fn push_flat(page: &mut Page, flat: &Flat) {
    page.push(b"weight ");
    page.push_number(flat.weight);
    page.push(b"\n");
    for net in 0..flat.nets.len() {
        push_line(page, flat, b"net", net, net);
    }
    push_ports(page, flat, b"input", flat.ins.as_slice());
    push_ports(page, flat, b"output", flat.outs.as_slice());
    for number in 0..flat.nodes.len() {
        push_node(page, flat, number, flat.nodes.get(number));
    }
    for number in 0..flat.latches.len() {
        push_latch(page, flat, number, flat.latches.get(number));
    }
}

// Appends a line for each item.
fn push_items<T: Debug>(page: &mut Page, what: &[u8], items: &[T]) {
    for number in 0..items.len() {
        page.push_start(what, number);
        page.push_item(&items[number]);
        page.push(b"\n");
    }
}

// Appends the cells, and the sources of the outputs, the latches' data and the nets.
fn push_list(page: &mut Page, list: &CellList) {
    push_items(page, b"cell", list.cells.as_slice());
    push_items(page, b"output", list.outs.as_slice());
    push_items(page, b"latch", list.latches.as_slice());
    push_items(page, b"net", list.nets.as_slice());
}

// Appends the name of the net on a lane, or nothing if no net is there.
fn push_label(page: &mut Page, flat: &Flat, label: Option<usize>) {
    page.push(b" ");
    if let Some(net) = label {
        push_name(page, flat, net);
    }
    page.push(b" |");
}

// Changes the labels as an instruction does. A gate's lane has no label until a net names it.
fn step(labels: &mut [Option<usize>], instr: Instr) {
    let lane = instr.lane() as usize;
    if lane + 1 < labels.len() {
        let (upper, lower) = (labels[lane], labels[lane + 1]);
        let (above, below) = match instr {
            Instr::Swap(_) => (lower, upper),
            Instr::Fork(_) => (upper, upper),
            Instr::Xor(_) | Instr::Or(_) | Instr::AndNot(_) => (None, None),
        };
        labels[lane] = above;
        labels[lane + 1] = below;
    }
}

// Changes the labels as the instructions of a column do.
fn step_all(labels: &mut [Option<usize>], column: &Column) {
    for instr in column.instrs.as_slice() {
        step(labels, *instr);
    }
}

// Labels the lanes of the nets whose place is here: at the entry, or at the exit of a column.
fn name(labels: &mut [Option<usize>], plan: &Plan, after: Option<u64>) {
    for net in 0..plan.nets.len() {
        let place = plan.nets.get(net);
        let lane = place.lane as usize;
        if place.after == after && lane < labels.len() {
            labels[lane] = Some(net);
        }
    }
}

fn push_row(page: &mut Page, flat: &Flat, labels: &[Option<usize>]) {
    for label in labels {
        push_label(page, flat, *label);
    }
    page.push(b"\n");
}

fn push_column(page: &mut Page, number: usize, column: &Column) {
    page.push(b"| ");
    page.push_number(number as u64);
    page.push(b" |");
    for instr in column.instrs.as_slice() {
        page.push(b" ");
        page.push_item(instr);
    }
    page.push(b" |");
}

fn push_head(page: &mut Page, lanes: u32) {
    page.push(b"| column | instructions |");
    for lane in 0..lanes {
        page.push(b" lane ");
        page.push_number(lane as u64);
        page.push(b" |");
    }
    page.push(b"\n|---|---|");
    for _lane in 0..lanes {
        page.push(b"---|");
    }
    page.push(b"\n| before | |");
}

// Appends the columns of a plan as a table: their instructions, and what stands on each lane after
// them. For each lane there is a label: the number of the net whose bit stands there.
fn push_plan(page: &mut Page, flat: &Flat, plan: &Plan, labels: &mut [Option<usize>]) {
    push_head(page, plan.lanes);
    name(labels, plan, None);
    push_row(page, flat, labels);
    for number in 0..plan.columns.len() {
        let column = plan.columns.get(number);
        push_column(page, number, column);
        step_all(labels, column);
        name(labels, plan, Some(number as u64));
        push_row(page, flat, labels);
    }
}

// Compares the lanes and columns of a plan with the tour.
fn expect_plan(page: &mut Page, flat: &Flat, plan: &Plan) {
    match vec![in page.alloc(); None; plan.lanes as usize] {
        Ok(mut labels) => {
            push_plan(page, flat, plan, &mut labels);
            drop(labels);
        }
        Err(_) => page.cut(),
    }
    page.expect(LANES.as_bytes());
}

// Compares the cells of a netlist with the tour.
fn expect_cells(page: &mut Page, netlist: &Netlist)
    requires parts { AreParts netlist.now.design netlist.now.flat netlist.now.order.nodes }
{
    match cover_mapper::map(page.alloc(), &netlist.flat, &netlist.order) {
        Ok(mapped) => {
            push_list(page, &mapped.list);
            drop(mapped);
        }
        Err(_) => page.cut(),
    }
    page.expect(CELLS.as_bytes());
}

// Compares the lanes and columns of a netlist's plan with the tour.
fn expect_planned(page: &mut Page, netlist: &Netlist)
    requires of_text { (text : List ℕ) × IsNetlist text netlist.now.design }
    requires parts { AreParts netlist.now.design netlist.now.flat netlist.now.order.nodes }
{
    match plan_netlist(page.alloc(), &netlist.flat, &netlist.order) {
        Ok(planned) => {
            expect_plan(page, &netlist.flat, &planned.plan);
            drop(planned);
        }
        Err(_) => page.cut(),
    }
}

// Compares the stages of a netlist with the tour: flat, as cells, and as lanes and columns.
fn expect_netlist(page: &mut Page, netlist: &Netlist)
    requires of_text { (text : List ℕ) × IsNetlist text netlist.now.design }
    requires parts { AreParts netlist.now.design netlist.now.flat netlist.now.order.nodes }
{
    push_flat(page, &netlist.flat);
    page.expect(FLAT.as_bytes());
    expect_cells(page, netlist);
    expect_planned(page, netlist);
}

/// Notes it unless the stages of a text's netlist are those of the tour.
pub fn expect_stages(page: &mut Page, text: &[u8]) {
    match netlist_of(page.alloc(), text) {
        Ok(netlist) => {
            expect_netlist(page, &netlist);
            drop(netlist);
        }
        Err(_) => page.cut(),
    }
}
