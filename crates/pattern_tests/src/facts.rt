// Facts about plans: sizes, times, ports and cells.
ghost use Rattle.lane_core.specs.Plans.{IsAdmissible};
ghost use Rattle.plan_layout.specs.Starts.{HasStartEdges};

use crate::lanes::are_in_order;
use crate::macro_steps::{Course, keeps_course};
use crate::pages::Page;
use crate::slots::is_row_of_slots;
use grid_assembly::{cell, fill_row, size};
use lane_core::{Plan, in_cell, latency, net_cell, out_cell, period};
use std::alloc::Global;
use ww_rule::State;

/// A fact about a plan, which does not hold if memory runs out while it is looked at. `Size` is the width and height of
/// its drawing, and `Cells`, `Rows` and `Slots` are parts of the drawing: rows are lines of letters, from the top down.
/// `Ports` gives x, y and the offset of each input, output or net. `InOrder` is said of a Fork and an Xor.
pub enum Fact {
    Size(u64, u64),
    Period(u64),
    Latency(u64),
    Ports(Port, &'static [(u64, u64, u64)]),
    Cells(&'static [(u64, u64, State)]),
    Rows(&'static str),
    Slots(&'static str),
    Keeps(Course),
    InOrder,
}

/// A kind of port, of which a plan has a list.
#[derive(Clone, Copy)]
pub enum Port {
    In,
    Out,
    Net,
}

// Where a port is and when it is read, if the plan has it.
fn port_of(plan: &Plan, port: Port, i: usize) -> Option<(u64, u64, u64)>
    requires { IsAdmissible plan.now }
{
    match port {
        Port::In if i < plan.ins.len() => Some(in_cell(plan, i)),
        Port::Out if i < plan.outs.len() => Some(out_cell(plan, i)),
        Port::Net if i < plan.nets.len() => Some(net_cell(plan, i)),
        _ => None,
    }
}

fn has_ports(plan: &Plan, port: Port, cells: &[(u64, u64, u64)]) -> bool
    requires { IsAdmissible plan.now }
{
    for (i, at) in cells.iter().enumerate() {
        if port_of(plan, port, i) != Some(*at) {
            return false;
        }
    }
    port_of(plan, port, cells.len()).is_none()
}

// Whether the plan's drawing has these cells.
fn has_cells(plan: &Plan, cells: &[(u64, u64, State)]) -> bool
    requires { IsAdmissible plan.now }
{
    for (x, y, state) in cells {
        if cell(plan, *x, *y) != *state {
            return false;
        }
    }
    true
}

fn is_letter(state: State, letter: u8) -> bool {
    match state {
        State::Empty => letter == b'.',
        State::Conductor => letter == b'C',
        State::Head | State::Tail => false,
    }
}

fn is_row(plan: &Plan, y: u64, letters: &[u8]) -> bool
    requires { IsAdmissible plan.now }
{
    let mut row = [State::Head; 33];
    fill_row(plan, y, 0, &mut row);
    for x in 0..33 {
        if x >= letters.len() || !is_letter(row[x], letters[x]) {
            return false;
        }
    }
    letters.len() == 33
}

// Whether the plan's drawing, or its slots, have these rows.
fn has_rows(plan: &Plan, rows: &str, are_slots: bool) -> bool
    requires { IsAdmissible plan.now }
{
    let mut y = 0u64;
    for line in rows.lines() {
        let letters = line.as_bytes();
        let is_there = if are_slots {
            is_row_of_slots(plan, y, letters)
        } else {
            is_row(plan, y, letters)
        };
        if !is_there {
            return false;
        }
        y = y.saturating_add(1);
    }
    true
}

fn has(alloc: Global, plan: &Plan, fact: &Fact) -> bool
    requires admissible { IsAdmissible plan.now }
    requires starts { HasStartEdges plan.now }
{
    match fact {
        Fact::Size(width, height) => size(plan) == (*width, *height),
        Fact::Period(generations) => period(plan) == *generations,
        Fact::Latency(generations) => latency(plan) == *generations,
        Fact::Ports(port, cells) => has_ports(plan, *port, cells),
        Fact::Cells(cells) => has_cells(plan, cells),
        Fact::Rows(rows) => has_rows(plan, rows, false),
        Fact::Slots(rows) => has_rows(plan, rows, true),
        Fact::Keeps(course) => keeps_course(alloc, plan, *course),
        Fact::InOrder => are_in_order(plan),
    }
}

/// Notes what the plan is about and the number of each fact that does not hold of it.
pub fn expect_facts(page: &mut Page, about: &[u8], plan: &Plan, facts: &[Fact])
    requires admissible { IsAdmissible plan.now }
    requires starts { HasStartEdges plan.now }
{
    for (number, fact) in facts.iter().enumerate() {
        page.expect_turn(about, number, has(page.alloc(), plan, fact));
    }
}
