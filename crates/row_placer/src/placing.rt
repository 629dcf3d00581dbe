// The placer.
ghost use Rattle.std.specs.Prelude.{◌≡◌, ◌≤◌, ◌<◌, ◌+◌, ◌-◌, ◌*◌, ◌^◌, ◌++◌, length, map, max, All, true, false, IfOk, OnOk};
ghost use Rattle.lists.specs.Items.{alone_if, number_at, one_if};
ghost use Rattle.cell_core.specs.Loops.{loop_count, loop_data, loop_state, names_one};
ghost use Rattle.row_placer.specs.Numbers.{number, ReadsWhatIsThere, NamesZero};
ghost use Rattle.row_placer.specs.Placed.{HasHomeIfZero, HavePlaces, IsPlaceable, IsPlacedOn, IsPlacedWithin, IsPrepared, AreFewLanes, AreOuts, net_place_of};
ghost use Rattle.row_placer.specs.Ready.{HoldAllPorts};
ghost use Rattle.cell_core.specs.declared.cells.Src.TheVariants.{One};

use crate::counting::{count_idle, count_uses};
use crate::reading::{count_loops, gates_of, names_zero, places_of, push_numbers, reads_zero};
use crate::start::{homes_for, lanes_by_reader, start_tags};
use crate::{Job, Lanes, PlaceError, Travel};
use cell_core::CellList;
use lane_core::{NetPlace, Program};
use lists::List;
use std::alloc::Global;
use std::mem;

// A program with more instructions than these is long.
const LONG: usize = 200_000;

// One with more than these is too long: its text has over a hundred million characters.
const TOO_LONG: usize = 600_000;

/// Returns the numbers of the ports: of the loops' data, and then of the outputs.
pub fn ports_of(alloc: Global, list: &CellList, loops: u32) -> Result<Vec<u32>, PlaceError>
    requires loops { loops ≡ loop_count list.now }
    requires sound { ReadsWhatIsThere list.now }
    requires small { list.now.inputs + loop_count list.now + 1 + length list.now.cells < 2 ^ 32 }
    ensures { IfOk result (λ v.
        v.items ≡ map (number list.now) (loop_data list.now ++ list.now.outs)
        ) }
{
    let mut ports = Vec::new(alloc);
    push_numbers(list, loops, list.latches.as_slice(), &mut ports)?;
    push_one(list, &mut ports)?;
    push_numbers(list, loops, list.outs.as_slice(), &mut ports)?;
    Ok(ports)
}

fn push_one(list: &CellList, ports: &mut Vec<u32>) -> Result<(), PlaceError>
    requires small { list.now.inputs + loop_count list.now + 1 + length list.now.cells < 2 ^ 32 }
    ensures { OnOk result (
        ports.new.items
        ≡ ports.old.items ++ map (number list.now) (alone_if (names_one list.now) One)
        ) }
{
    if list.names_one() {
        ports.push(list.inputs + list.starts.len() as u32)?;
    }
    Ok(())
}

/// A job, how often each of its values is used, and the homes of its values.
#[derive(Drop)]
pub struct Prepared {
    pub job: Job,
    pub left: Vec<u32>,
    pub homes: Vec<u32>,
}

/// Prepares the job of a list, with `spare` spare lanes. The inputs, and then the dark lane, stand
/// on the wanted lanes, if these are distinct and above the loops.
pub fn prepare(
    alloc: Global,
    list: &CellList,
    loops: u32,
    spare: u32,
    wanted: &[u32],
    travel: Travel,
) -> Result<Prepared, PlaceError>
    requires loops { loops ≡ loop_count list.now }
    requires spare { spare < 2 ^ 20 }
    requires sound { ReadsWhatIsThere list.now }
    requires small { IsPlaceable list.now }
    ensures prepared { IfOk result (λ r. IsPrepared list.now r.job r.left.items r.homes.items) }
    ensures few { IfOk result (λ r. AreFewLanes list.now spare (length r.job.start)) }
{
    let inner = list.inputs + loops;
    let gates = gates_of(alloc, list, loops)?;
    let ports = ports_of(alloc, list, loops)?;
    let (left, owed) = count_uses(alloc, &gates, &ports, inner + 1)?;
    let zero = wants_zero(list, &left, inner);
    let dark = one_if(zero);
    let idle = count_idle(&left, inner + dark);
    let least = first_home(owed, idle, dark);
    let above = least + spare + list.inputs;
    let homes = homes_for(alloc, above, list.inputs, loops, zero, &left, wanted)?;
    let start = start_tags(alloc, &homes, &left, above + loops)?;
    let job = Job {
        gates: List::of(gates),
        base: inner + 1,
        ports: List::of(ports),
        start: List::of(start),
        travel,
    };
    Ok(Prepared { job, left, homes })
}

/// Returns 1 for `true` and 0 for `false`.
pub fn one_if(flag: bool) -> u32
    ensures { result ≡ one_if flag }
{
    if flag { 1 } else { 0 }
}

// How many lanes stand above the homes of inputs and loops: as many as must be free, less the homes
// that are free, and at least `dark`.
fn first_home(owed: u32, idle: u32, dark: u32) -> u32
    requires { owed + dark < 2 ^ 32 }
    ensures enough { owed + dark ≤ result + idle }
    ensures dark { dark ≤ result }
    ensures most { result ≤ owed + dark }
{
    (owed + dark).saturating_sub(idle).max(dark)
}

// Whether constant 0 is used, or a net shows it.
fn wants_zero(list: &CellList, left: &Vec<u32>, zero: u32) -> bool
    requires { zero < length left.now.items }
    ensures used { 1 ≤ number_at left.now.items zero → result ≡ true }
    ensures nets { NamesZero list.now.nets result }
    ensures none { number_at left.now.items zero ≡ 0 → length list.now.nets ≡ 0 → result ≡ false }
{
    if left[zero as usize] > 0 {
        return true;
    }
    names_zero(list.nets.as_slice())
}

/// A program, and how many columns it has when it is packed.
#[derive(Drop)]
pub struct Placed {
    pub program: Program,
    pub columns: u64,
}

impl Placed {
    fn into_program(self) -> Program
        ensures { result ≡ self.program }
    {
        self.program
    }

    // The size of its drawing, in tiles.
    fn area(&self) -> u64 {
        let loops = self.program.latches.len() as u64;
        let width = self.columns.saturating_add(loops).saturating_add(loops);
        width.saturating_mul((self.program.lanes as u64).saturating_add(loops))
    }
}

fn latest(clocks: &Vec<u64>) -> u64 {
    let mut latest = 0;
    for clock in clocks.iter() {
        latest = *clock.max(&latest);
    }
    latest
}

// The lanes of a program's outputs, the places of its nets, and the bits with which its loops
// start.
#[derive(Drop)]
struct Ends {
    outs: Vec<u32>,
    nets: Vec<NetPlace>,
    latches: Vec<bool>,
}

// Where outputs and nets are found when all is placed, and how the loops start.
fn ends_of(
    alloc: Global,
    list: &CellList,
    loops: u32,
    homes: &[u32],
    lanes: &Lanes,
) -> Result<Ends, PlaceError>
    requires loops { loops ≡ loop_count list.now }
    requires ports { loops ≤ length lanes.now.job.ports }
    requires held { HoldAllPorts lanes.now.job lanes.now.tags.items }
    requires places { HavePlaces list.now homes.now lanes.now.made.items }
    requires zero { All (HasHomeIfZero list.now homes.now) list.now.nets }
    ensures long { IfOk result (λ r. length r.outs.items + loops ≡ length lanes.now.job.ports) }
    ensures outs { IfOk result (λ r.
        AreOuts lanes.now.job loops lanes.now.tags.items r.outs.items
        ) }
    ensures nets { IfOk result (λ r.
        r.nets.items ≡ map (net_place_of list.now homes.now lanes.now.made.items) list.now.nets
        ) }
    ensures latches { IfOk result (λ r. r.latches.items ≡ loop_state list.now list.now.starts) }
{
    let outs = lanes.find_outs(alloc, loops)?;
    let nets = places_of(alloc, list, loops, homes, &lanes.made)?;
    let latches = latches_of(alloc, list)?;
    Ok(Ends {
        outs,
        nets,
        latches,
    })
}

// The program of a prepared job.
fn place_job(
    alloc: Global,
    list: &CellList,
    loops: u32,
    job: Job,
    left: &mut [u32],
    homes: Vec<u32>,
) -> Result<Placed, PlaceError>
    requires loops { loops ≡ loop_count list.now }
    requires small { IsPlaceable list.now }
    requires few { length job.start < 2 ^ 32 }
    requires prepared { IsPrepared list.now job left.old homes.items }
    ensures { IfOk result (λ r. IsPlacedOn list.now (length job.start) r.program) }
{
    let lanes = Lanes::run(alloc, job, loops, left)?;
    let columns = latest(&lanes.clocks);
    let Ok(
        Ends {
            outs,
            nets,
            latches,
        },
    ) = ends_of(alloc, list, loops, &homes, &lanes)
    else {
        drop(lanes);
        return Err(PlaceError::NoMemory);
    };
    let mut ins = homes;
    ins.truncate(list.inputs as usize);
    let count = lanes.tags.len() as u32;
    let instrs = lanes.into_instrs();
    let program = Program {
        lanes: count,
        instrs: List::of(instrs),
        ins: List::of(ins),
        latches: List::of(latches),
        outs: List::of(outs),
        nets: List::of(nets),
    };
    Ok(Placed { program, columns })
}

// A program that computes the list, with so many spare lanes, with inputs on the wanted lanes if
// these will do, and with lanes that come side by side in this way.
fn place_with(
    alloc: Global,
    list: &CellList,
    loops: u32,
    spare: u32,
    wanted: &[u32],
    travel: Travel,
) -> Result<Placed, PlaceError>
    requires loops { loops ≡ loop_count list.now }
    requires small { IsPlaceable list.now }
    requires spare { spare < 2 ^ 20 }
    ensures { IfOk result (λ r. IsPlacedWithin list.now spare r.program) }
{
    let Prepared { job, left, homes } = prepare(alloc, list, loops, spare, wanted, travel)?;
    let mut left = left;
    place_job(alloc, list, loops, job, left.as_mut_slice(), homes)
}

// The most spare lanes: as many as there are inputs or as there are outputs, whichever are more.
fn most_spare(list: &CellList) -> u32
    requires { list.now.inputs + length list.now.outs < 2 ^ 20 }
    ensures { result ≡ max list.now.inputs (length list.now.outs) }
{
    list.inputs.max(list.outs.len() as u32)
}

// How many more numbers of spare lanes are tried if the first program is this one: none if it is
// long.
fn more_tries(first: &Placed) -> u32 {
    if first.program.instrs.len() > LONG {
        0
    } else {
        4
    }
}

// Whether the second program has less than two thirds of the first one's instructions and its drawing
// is at most twice as large.
fn is_much_shorter(first: &Placed, second: &Placed) -> bool {
    let is_short = second.program.instrs.len() < first.program.instrs.len() / 3 * 2;
    is_short && second.area() / 2 <= first.area()
}

// The program of a list whose first program is too long, on as many lanes: lanes share the way, and
// the inputs stand in the order in which cells read them.
fn placed_again(
    alloc: Global,
    list: &CellList,
    loops: u32,
    spare: u32,
    first: &Placed,
) -> Result<Placed, PlaceError>
    requires loops { loops ≡ loop_count list.now }
    requires small { IsPlaceable list.now }
    requires spare { spare < 2 ^ 20 }
    ensures { IfOk result (λ r. IsPlacedWithin list.now spare r.program) }
{
    let above = first.program.lanes.saturating_sub(loops);
    let wanted = lanes_by_reader(alloc, list, above, reads_zero(list))?;
    place_with(alloc, list, loops, spare, &wanted, Travel::Shared)
}

// Takes the program that `placed_again` makes in place of a first one that is too long, if it is much
// shorter: its drawing may be the larger one, but its text is not.
fn shorten(
    alloc: Global,
    list: &CellList,
    loops: u32,
    spare: u32,
    first: &mut Placed,
) -> Result<(), PlaceError>
    requires loops { loops ≡ loop_count list.now }
    requires small { IsPlaceable list.now }
    requires spare { spare < 2 ^ 20 }
    requires first { IsPlacedWithin list.now spare first.old.program }
    ensures { IsPlacedWithin list.now spare first.new.program }
{
    if first.program.instrs.len() <= TOO_LONG {
        return Ok(());
    }
    let second = placed_again(alloc, list, loops, spare, first)?;
    if is_much_shorter(first, &second) {
        drop(mem::replace(first, second));
    } else {
        drop(second);
    }
    Ok(())
}

// Takes the program with so many spare lanes in place of the best one if its drawing is smaller.
fn try_spare(
    alloc: Global,
    list: &CellList,
    loops: u32,
    spare: u32,
    best: &mut Placed,
) -> Result<(), PlaceError>
    requires loops { loops ≡ loop_count list.now }
    requires small { IsPlaceable list.now }
    requires spare { spare ≤ max list.now.inputs (length list.now.outs) }
    requires best { IsPlacedWithin
        list.now (max list.now.inputs (length list.now.outs)) best.old.program }
    ensures { IsPlacedWithin
        list.now (max list.now.inputs (length list.now.outs)) best.new.program }
{
    let next = place_with(alloc, list, loops, spare, &[], Travel::Soonest)?;
    if next.area() < best.area() {
        drop(mem::replace(best, next));
    } else {
        drop(next);
    }
    Ok(())
}

// Shortens the first program if it is too long, and tries more numbers of spare lanes.
fn improve(alloc: Global, list: &CellList, loops: u32, best: &mut Placed) -> Result<(), PlaceError>
    requires loops { loops ≡ loop_count list.now }
    requires small { IsPlaceable list.now }
    requires first { IsPlacedWithin list.now 0 best.old.program }
    ensures { OnOk result (IsPlacedWithin
        list.now (max list.now.inputs (length list.now.outs)) best.new.program
        ) }
{
    let tries = more_tries(best);
    shorten(alloc, list, loops, 0, best)?;
    for spare in 0..most_spare(list).min(tries) {
        try_spare(alloc, list, loops, spare + 1, best)?;
    }
    Ok(())
}

/// Places a list on lanes: returns a program that computes it. It tries 0 to 4 spare lanes, but no
/// more than there are inputs or outputs, whichever are more, and 0 alone if that program is long.
/// If it is too long, the list is placed once more, so that lanes share the way. The contract leaves
/// open which of the programs is kept.
pub fn place(alloc: Global, list: &CellList) -> Result<Program, PlaceError>
    requires small { IsPlaceable list.now }
    ensures { IfOk result (IsPlacedWithin list.now (max list.now.inputs (length list.now.outs))) }
{
    let loops = count_loops(list);
    let mut best = place_with(alloc, list, loops, 0, &[], Travel::Soonest)?;
    match improve(alloc, list, loops, &mut best) {
        Ok(()) => Ok(best.into_program()),
        Err(error) => {
            drop(best);
            Err(error)
        }
    }
}

/// Places a list on lanes: returns a program that computes it, on `spare` more lanes than the
/// fewest. No more spare lanes are taken than there are inputs or outputs, whichever are more.
/// `wanted` has the lanes of the inputs, and then one that stays dark if constant 0 is read or
/// shown by a net: they are taken if they are as many, distinct and above the loops.
pub fn place_at(
    alloc: Global,
    list: &CellList,
    spare: u32,
    wanted: &[u32],
) -> Result<Program, PlaceError>
    requires small { IsPlaceable list.now }
    ensures { IfOk result (IsPlacedWithin list.now (max list.now.inputs (length list.now.outs))) }
{
    let loops = count_loops(list);
    let spare = spare.min(most_spare(list));
    let mut placed = place_with(alloc, list, loops, spare, wanted, Travel::Soonest)?;
    match shorten(alloc, list, loops, spare, &mut placed) {
        Ok(()) => Ok(placed.into_program()),
        Err(error) => {
            drop(placed);
            Err(error)
        }
    }
}

fn latches_of(alloc: Global, list: &CellList) -> Result<Vec<bool>, PlaceError>
    ensures { IfOk result (λ v. v.items ≡ loop_state list.now list.now.starts) }
{
    let mut latches = Vec::new(alloc);
    latches.extend_from_slice(list.starts.as_slice())?;
    if list.names_one() {
        latches.push(true)?;
    }
    Ok(latches)
}
