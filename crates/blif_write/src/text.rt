// The whole text.
ghost use Rattle.std.specs.Prelude.{ℕ, List, ◌++◌, take, OnOk, OnErr};
ghost use Rattle.std.specs.Io.KnownBytes.{Appends};
ghost use Rattle.ww_base.specs.Faults.{HasCause};
ghost use Rattle.ww_base.specs.Pages.{held};
ghost use Rattle.ww_base.specs.Progress.{Wrote, Broke};
ghost use Rattle.blif_text.specs.declared.logical.Logical.{Logical};
ghost use Rattle.blif_write.specs.Text.{worded_text};
ghost use Rattle.blif_write.specs.Lift.{text_of_lift};
ghost use Rattle.blif_write.specs.Words.{head_then};

use crate::Lift;
use crate::lines::{write_line, write_name_line};
use crate::netlist::{write_gates, write_latches, write_outputs};
use crate::word::LineWord;
use cell_core::Src;
use ww_base::{Failed, Page, Sink};

// Writes the lines of the model, of its inputs and outputs, and of constant 0.
fn write_head<O: Sink>(sink: &mut O, page: &mut Page, lift: &Lift) -> Result<(), Failed>
    ensures ok { OnOk result ((more : List Logical) →
        Wrote (O.written sink.old) (O.written sink.new) (O.faults sink.old) (O.faults sink.new)
        (held page.old ++ worded_text (head_then lift.now more))
        (held page.new ++ worded_text more)) }
    ensures err { OnErr result ((more : List Logical) →
        Broke (O.written sink.old) (O.written sink.new) (O.faults sink.old) (O.faults sink.new)
        (held page.old ++ worded_text (head_then lift.now more))) }
{
    write_line(sink, page, lift, b".model", &[LineWord::Bytes(b"lifted")])?;
    write_name_line(sink, page, lift, b".inputs", lift.ins.as_slice())?;
    write_name_line(sink, page, lift, b".outputs", lift.outs.as_slice())?;
    write_line(sink, page, lift, b".names", &[LineWord::Net(Src::Zero)])
}

/// Writes the BLIF text of a lifted circuit. If a write fails, a prefix of the text has been
/// written. It takes no memory. Each name is written as often as it is used, so a long name makes a
/// long text.
pub fn write<O: Sink>(lift: &Lift, sink: &mut O) -> Result<(), Failed>
    ensures ok { OnOk result (Appends (O.written sink.old) (O.written sink.new)
        (text_of_lift lift.now)) }
    ensures front { OnErr result (
        (n : ℕ)
        × Appends (O.written sink.old) (O.written sink.new) (take n (text_of_lift lift.now))
        ) }
    ensures cause { HasCause (O.faults sink.old) (O.faults sink.new) result }
{
    let mut page = Page::new();
    write_head(sink, &mut page, lift)?;
    write_latches(sink, &mut page, lift)?;
    write_gates(sink, &mut page, lift)?;
    write_outputs(sink, &mut page, lift)?;
    page.flush(sink)
}
