// One line of a port table.
ghost use Rattle.std.specs.Prelude.{◌<◌, ℕ, List, ◌++◌, length, take, OnOk, OnErr};
ghost use Rattle.std.specs.Io.KnownBytes.{Appends};
ghost use Rattle.ww_base.specs.Faults.{HasCause};
ghost use Rattle.pattern_reading.specs.Spelling.{port_lines};
ghost use Rattle.port_writing.specs.Lines.{ended_line};
ghost use Rattle.ww_base.specs.Pages.{held};
ghost use Rattle.ww_base.specs.Progress.{Wrote, Broke};

use crate::table::{write_net, write_port, write_version};
use pattern_reading::Ports;
use ww_base::{Failed, Page, Sink};

// Puts line `n` on a page.
fn put_line<O: Sink>(sink: &mut O, page: &mut Page, ports: &Ports, n: usize) -> Result<(), Failed>
    requires { n < length (port_lines ports.now) }
    ensures ok { OnOk result ((rest : List ℕ) →
        Wrote (O.written sink.old) (O.written sink.new) (O.faults sink.old) (O.faults sink.new)
        (held page.old ++ (ended_line ports.now n ++ rest)) (held page.new ++ rest)) }
    ensures err { OnErr result ((rest : List ℕ) →
        Broke (O.written sink.old) (O.written sink.new) (O.faults sink.old) (O.faults sink.new)
        (held page.old ++ (ended_line ports.now n ++ rest))) }
{
    if n == 0 {
        return write_version(sink, page, ports.p, ports.l, ports.c);
    }
    let input = n - 1;
    if input < ports.ins.len() {
        return write_port(sink, page, b"IN", ports.ins.get(input));
    }
    let output = input - ports.ins.len();
    if output < ports.outs.len() {
        return write_port(sink, page, b"OUT", ports.outs.get(output));
    }
    write_net(sink, page, ports.nets.get(output - ports.outs.len()))
}

/// Writes a line of a table, with its line end. Line 0 is the version line, and the lines of the
/// inputs, the outputs and the nets follow. If a write fails, a prefix of the line has been
/// written. It takes no memory.
pub fn write_line<O: Sink>(ports: &Ports, n: usize, sink: &mut O) -> Result<(), Failed>
    requires { n < length (port_lines ports.now) }
    ensures ok { OnOk result (Appends (O.written sink.old) (O.written sink.new)
        (ended_line ports.now n)) }
    ensures front { OnErr result (
        (k : ℕ)
        × Appends (O.written sink.old) (O.written sink.new) (take k (ended_line ports.now n))
        ) }
    ensures cause { HasCause (O.faults sink.old) (O.faults sink.new) result }
{
    let mut page = Page::new();
    put_line(sink, &mut page, ports, n)?;
    page.flush(sink)
}
