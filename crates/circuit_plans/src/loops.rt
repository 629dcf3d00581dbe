// Where the loops of a circuit enter its columns, and which of them start with 1.
ghost use Rattle.std.specs.Prelude.{◌≡◌, ◌≤◌, ◌<◌, ◌++◌, length, IfOk, OnOk};
ghost use Rattle.lists.specs.Items.{alone_if, flag_at};
ghost use Rattle.circuit_plans.specs.Circuits.{loop_start, starts_with_one, first_bits, starts_where};

use lane_core::{Plan, Start, Starts};
use lists::List;
use std::alloc::{AllocError, Global};

/// Returns the edge at which a loop enters the first column, in a plan of so many lanes and loops,
/// by the edge's cell.
pub fn loop_start(lanes: u32, loops: u32, number: u32) -> Start
    requires { loops ≤ lanes }
    ensures { result ≡ loop_start lanes loops number }
{
    let lane = (lanes - loops) as u64 + number as u64;
    Start {
        y: 16 * lane + 8,
        x: 32 * loops as u64,
    }
}

fn starts_with_one(plan: &Plan, number: u32) -> bool
    requires { plan.now.latches ≤ plan.now.lanes }
    ensures { result ≡ starts_with_one plan.now.starts.list plan.now.lanes plan.now.latches number }
{
    let start = loop_start(plan.lanes, plan.latches, number);
    plan.starts.has(start.x, start.y)
}

/// Returns the bits with which the loops of a plan start, if electrons stand only where loops enter
/// the columns: 1 for a loop if an electron stands where it enters.
pub fn first_bits(alloc: Global, plan: &Plan) -> Result<Vec<bool>, AllocError>
    requires { plan.now.latches ≤ plan.now.lanes }
    ensures { IfOk result (λ bits. bits.items ≡ first_bits plan.now) }
{
    let mut bits = Vec::new(alloc);
    for number in 0..plan.latches {
        bits.push(starts_with_one(plan, number))?;
    }
    Ok(bits)
}

// Adds a start if the bit is 1.
fn push_if(found: &mut Vec<Start>, bit: bool, start: Start) -> Result<(), AllocError>
    ensures { OnOk result (found.new.items ≡ found.old.items ++ alone_if bit start) }
{
    if bit {
        found.push(start)?;
    }
    Ok(())
}

/// Returns the starts of loops that start with these bits, one bit for each loop.
pub fn starts_of_bits(alloc: Global, lanes: u32, bits: &[bool]) -> Result<Starts, AllocError>
    requires { length bits.now ≤ lanes }
    ensures { IfOk result (λ starts. starts.list ≡
        starts_where lanes (length bits.now) (λ loop. flag_at bits.now loop)) }
{
    let loops = bits.len() as u32;
    let mut found = Vec::new(alloc);
    for (number, bit) in bits.iter().enumerate() {
        push_if(&mut found, *bit, loop_start(lanes, loops, number as u32))?;
    }
    Ok(Starts {
        list: List::of(found),
    })
}
