// How a test writes down a plan.
ghost use Rattle.std.specs.Prelude.{◌≡◌, IsTrue, IfSome};
ghost use Rattle.lane_core.specs.Instrs.{are_sorted_apart, is_above};
ghost use Rattle.lane_core.specs.Plans.{IsAdmissible};
ghost use Rattle.plan_layout.specs.Starts.{HasStartEdges};

use lane_core::{Column, Instr, NetPlace, Plan, Start, Starts};
use lists::List;
use macro_grid::admissible;
use std::alloc::Global;

/// A plan as a test writes it down. Each column has at most two instructions, and the tape has the
/// bits of each input, a letter for each bit.
#[derive(Clone, Copy)]
pub struct Written<'a> {
    pub lanes: u32,
    pub columns: &'a [&'a [Instr]],
    pub latches: u32,
    pub starts: &'a [Start],
    pub ins: &'a [u32],
    pub outs: &'a [u32],
    pub nets: &'a [NetPlace],
    pub tape: &'a [&'a [u8]],
}

// Whether the lanes of the second instruction are below those of the first.
fn is_above(first: Instr, second: Instr) -> bool
    ensures { result ≡ is_above first second }
{
    (first.lane() as u64) + 1 < second.lane() as u64
}

// Whether there are at most two instructions, and the lanes of the second, if there is one, are
// below those of the first.
fn are_apart(instrs: &[Instr]) -> bool
    ensures { IsTrue result → IsTrue (are_sorted_apart instrs.now) }
{
    instrs.len() < 2 || instrs.len() == 2 && is_above(instrs[0], instrs[1])
}

/// Makes the column of these instructions. There is none if there are more than two, or if the lanes of the second are
/// not below those of the first, or if memory runs out.
pub fn column_of(alloc: Global, instrs: &[Instr]) -> Option<Column> {
    let mut refused = false;
    let instrs = list_of(alloc, instrs, &mut refused);
    if refused || !are_apart(instrs.as_slice()) {
        drop(instrs);
        return None;
    }
    Some(Column { instrs })
}

// The items in a list of their own; notes in `refused` that memory ran out.
fn list_of<T: Copy>(alloc: Global, items: &[T], refused: &mut bool) -> List<T> {
    match items.to_vec(alloc) {
        Ok(items) => List::of(items),
        Err(_) => {
            *refused = true;
            List::of(Vec::new(alloc))
        }
    }
}

// Puts an item after the others, or notes in `refused` that memory ran out.
fn put<T: Drop>(items: &mut Vec<T>, item: T, refused: &mut bool) {
    *refused |= items.push(item).is_err();
}

fn columns_of(alloc: Global, written: &[&[Instr]], refused: &mut bool) -> List<Column> {
    let mut columns = Vec::new(alloc);
    for instrs in written {
        match column_of(alloc, instrs) {
            Some(column) => put(&mut columns, column, refused),
            None => *refused = true,
        }
    }
    List::of(columns)
}

fn bits_of(alloc: Global, letters: &[u8], refused: &mut bool) -> List<bool> {
    let mut bits = Vec::new(alloc);
    for letter in letters {
        put(&mut bits, *letter == b'1', refused);
    }
    List::of(bits)
}

/// Makes lists of bits from a letter for each bit: `1` for 1, and any other for 0. Notes in `refused`
/// that memory ran out.
pub fn lists_of(alloc: Global, written: &[&[u8]], refused: &mut bool) -> Vec<List<bool>> {
    let mut lists = Vec::new(alloc);
    for letters in written {
        let bits = bits_of(alloc, letters, refused);
        put(&mut lists, bits, refused);
    }
    lists
}

// The plan that is written down. Notes in `refused` that there is none, or that memory ran out.
fn made(alloc: Global, written: &Written<'_>, refused: &mut bool) -> Plan {
    Plan {
        lanes: written.lanes,
        columns: columns_of(alloc, written.columns, refused),
        latches: written.latches,
        starts: Starts::of(list_of(alloc, written.starts, refused).into_vec()),
        ins: list_of(alloc, written.ins, refused),
        outs: list_of(alloc, written.outs, refused),
        nets: list_of(alloc, written.nets, refused),
        tape: List::of(lists_of(alloc, written.tape, refused)),
    }
}

/// Makes the plan that is written down, admissible or not. There is none if it has a column that is none, or if memory
/// runs out.
pub fn plan_of(alloc: Global, written: &Written<'_>) -> Option<Plan> {
    let mut refused = false;
    let plan = made(alloc, written, &mut refused);
    if refused {
        drop(plan);
        return None;
    }
    Some(plan)
}

/// Returns the plan if it is admissible.
pub fn checked(plan: Plan) -> Option<Plan>
    ensures admissible { IfSome result IsAdmissible }
    ensures starts { IfSome result HasStartEdges }
{
    if !admissible(&plan) {
        drop(plan);
        return None;
    }
    Some(plan)
}

/// Makes the plan that is written down, if it is admissible.
pub fn admitted(alloc: Global, written: &Written<'_>) -> Option<Plan>
    ensures admissible { IfSome result IsAdmissible }
    ensures starts { IfSome result HasStartEdges }
{
    checked(plan_of(alloc, written)?)
}
