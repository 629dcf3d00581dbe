// The whole text: the variables, and the blocks of cycles.
ghost use Rattle.std.specs.Prelude.{◌≡◌, ◌<◌, ◌+◌, ◌*◌, ℕ, List, ◌++◌, length, take, OnOk, OnErr};
ghost use Rattle.lists.specs.Items.{list_at};
ghost use Rattle.std.specs.Io.KnownBytes.{Appends};
ghost use Rattle.ww_base.specs.Faults.{HasCause};
ghost use Rattle.ww_base.specs.Pages.{held};
ghost use Rattle.ww_base.specs.Progress.{Wrote, Broke};
ghost use Rattle.vcd_write.specs.Writing.{is_written, vcd_text};
ghost use Rattle.vcd_write.specs.Vcd.{waves_in, vars_text, values_text, blocks_text};

use crate::Vcd;
use crate::lines::{write_time, write_value, write_var};
use ww_base::{Failed, Page, Sink};

// The reference of a variable.
fn reference(vcd: &Vcd, n: usize) -> &[u8]
    requires { n < length vcd.now.references }
    ensures { result.now ≡ list_at vcd.now.references n }
{
    vcd.references.get(n).as_slice()
}

// Writes the lines of all variables.
fn write_vars<O: Sink>(sink: &mut O, page: &mut Page, vcd: &Vcd) -> Result<(), Failed>
    ensures ok { OnOk result ((rest : List ℕ) →
        Wrote (O.written sink.old) (O.written sink.new) (O.faults sink.old) (O.faults sink.new)
        (held page.old ++ (vars_text (waves_in vcd.now) 0 (length vcd.now.references) ++ rest))
        (held page.new ++ rest)) }
    ensures err { OnErr result ((rest : List ℕ) →
        Broke (O.written sink.old) (O.written sink.new) (O.faults sink.old) (O.faults sink.new)
        (held page.old ++ (vars_text (waves_in vcd.now) 0 (length vcd.now.references) ++ rest))) }
{
    for n in 0..vcd.references.len() {
        write_var(sink, page, n, reference(vcd, n))?;
    }
    Ok(())
}

// The place of a variable's bit in a cycle, among all bits.
fn place(count: usize, cycles: usize, all: usize, n: usize, cycle: usize) -> usize
    requires whole { all ≡ cycles * count }
    requires variable { n < count }
    requires cycle { cycle < cycles }
    ensures place { result ≡ cycle * count + n }
    ensures within { result < all }
{
    cycle * count + n
}

// The bit of a variable in a cycle.
fn bit(vcd: &Vcd, n: usize, cycle: usize) -> bool
    requires variable { n < length vcd.now.references }
    requires cycle { cycle < vcd.now.cycles }
    ensures { result ≡ (waves_in vcd.now).bit n cycle }
{
    let count = vcd.references.len();
    vcd.bits
        .get(place(count, vcd.cycles, vcd.bits.len(), n, cycle))
}

// Whether a variable's bit is written in a cycle.
fn is_written(vcd: &Vcd, n: usize, cycle: usize) -> bool
    requires variable { n < length vcd.now.references }
    requires cycle { cycle < vcd.now.cycles }
    ensures { result ≡ is_written (waves_in vcd.now) cycle n }
{
    cycle == 0 || bit(vcd, n, cycle) != bit(vcd, n, cycle - 1)
}

// Writes the value of a variable in a cycle, if the cycle is the first or the bit differs from that
// of the cycle before.
fn write_if_changed<O: Sink>(
    sink: &mut O,
    page: &mut Page,
    vcd: &Vcd,
    cycle: usize,
    n: usize,
) -> Result<(), Failed>
    requires cycle { cycle < vcd.now.cycles }
    requires variable { n < length vcd.now.references }
    ensures ok { OnOk result ((rest : List ℕ) →
        Wrote (O.written sink.old) (O.written sink.new) (O.faults sink.old) (O.faults sink.new)
        (held page.old ++ (values_text (waves_in vcd.now) cycle n 1 ++ rest))
        (held page.new ++ rest)) }
    ensures err { OnErr result ((rest : List ℕ) →
        Broke (O.written sink.old) (O.written sink.new) (O.faults sink.old) (O.faults sink.new)
        (held page.old ++ (values_text (waves_in vcd.now) cycle n 1 ++ rest))) }
{
    if !is_written(vcd, n, cycle) {
        return Ok(());
    }
    write_value(sink, page, n, bit(vcd, n, cycle))
}

// Writes the values that are written in a cycle.
fn write_values<O: Sink>(
    sink: &mut O,
    page: &mut Page,
    vcd: &Vcd,
    cycle: usize,
) -> Result<(), Failed>
    requires { cycle < vcd.now.cycles }
    ensures ok { OnOk result ((rest : List ℕ) →
        Wrote (O.written sink.old) (O.written sink.new) (O.faults sink.old) (O.faults sink.new)
        (held page.old ++ (values_text (waves_in vcd.now) cycle 0 (length vcd.now.references) ++
        rest)) (held page.new ++ rest)) }
    ensures err { OnErr result ((rest : List ℕ) →
        Broke (O.written sink.old) (O.written sink.new) (O.faults sink.old) (O.faults sink.new)
        (held page.old ++ (values_text (waves_in vcd.now) cycle 0 (length vcd.now.references) ++
        rest))) }
{
    for n in 0..vcd.references.len() {
        write_if_changed(sink, page, vcd, cycle, n)?;
    }
    Ok(())
}

// Writes the blocks of all cycles.
fn write_blocks<O: Sink>(sink: &mut O, page: &mut Page, vcd: &Vcd) -> Result<(), Failed>
    ensures ok { OnOk result ((rest : List ℕ) →
        Wrote (O.written sink.old) (O.written sink.new) (O.faults sink.old) (O.faults sink.new)
        (held page.old ++ (blocks_text (waves_in vcd.now) 0 vcd.now.cycles ++ rest))
        (held page.new ++ rest)) }
    ensures err { OnErr result ((rest : List ℕ) →
        Broke (O.written sink.old) (O.written sink.new) (O.faults sink.old) (O.faults sink.new)
        (held page.old ++ (blocks_text (waves_in vcd.now) 0 vcd.now.cycles ++ rest))) }
{
    for cycle in 0..vcd.cycles {
        write_time(sink, page, cycle)?;
        write_values(sink, page, vcd, cycle)?;
    }
    Ok(())
}

/// Writes the VCD text of the variables: first a line for each variable, with its id and its
/// reference; then the values of all variables at the time of the first cycle, and at that of each
/// later cycle the values of the variables whose bit differs from that of the cycle before; and
/// last the time after the last cycle. If a write fails, a prefix of the text has been written. It
/// takes no memory.
pub fn write<O: Sink>(vcd: &Vcd, sink: &mut O) -> Result<(), Failed>
    ensures ok { OnOk result (
        Appends (O.written sink.old) (O.written sink.new) (vcd_text (waves_in vcd.now))
        ) }
    ensures front { OnErr result (
        (n : ℕ)
        × Appends (O.written sink.old) (O.written sink.new) (
        take n (vcd_text (waves_in vcd.now))
        )
        ) }
    ensures cause { HasCause (O.faults sink.old) (O.faults sink.new) result }
{
    let mut page = Page::new();
    write_vars(sink, &mut page, vcd)?;
    page.put(sink, b"$enddefinitions $end\n")?;
    write_blocks(sink, &mut page, vcd)?;
    write_time(sink, &mut page, vcd.cycles)?;
    page.flush(sink)
}
