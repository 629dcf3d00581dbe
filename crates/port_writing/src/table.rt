// The lines of a port table.
ghost use Rattle.std.specs.Prelude.{◌≡◌, ℕ, List, ◌∷◌, ◌++◌, map, codes, OnOk, OnErr};
ghost use Rattle.pattern_reading.specs.PortLines.{Version, Net};
ghost use Rattle.pattern_reading.specs.Spelling.{spelled_line, port_lines};
ghost use Rattle.pattern_writing.specs.Writer.{ended_lines};
ghost use Rattle.ww_base.specs.Pages.{held, column_of};
ghost use Rattle.ww_base.specs.Progress.{Wrote, Broke};
ghost use Rattle.port_writing.specs.Lines.{named_line, port_text, spaced};

use crate::names::put_name;
use itoa::Buffer;
use pattern_reading::{NetLine, PortLine, Ports};
use ww_base::{Failed, Page, Sink};

// Puts a field on the page, after a space.
fn put_field<O: Sink>(sink: &mut O, page: &mut Page, field: &[u8]) -> Result<(), Failed>
    ensures column { column_of page.new ≡ column_of page.old }
    ensures ok { OnOk result ((rest : List ℕ) →
        Wrote (O.written sink.old) (O.written sink.new) (O.faults sink.old) (O.faults sink.new)
        (held page.old ++ (32 ∷ (field.now ++ rest))) (held page.new ++ rest)) }
    ensures err { OnErr result ((rest : List ℕ) →
        Broke (O.written sink.old) (O.written sink.new) (O.faults sink.old) (O.faults sink.new)
        (held page.old ++ (32 ∷ (field.now ++ rest)))) }
{
    page.put(sink, b" ")?;
    page.put(sink, field)
}

// Puts fields on the page, each after a space.
fn put_fields<O: Sink>(sink: &mut O, page: &mut Page, fields: &[&[u8]]) -> Result<(), Failed>
    ensures column { column_of page.new ≡ column_of page.old }
    ensures ok { OnOk result ((rest : List ℕ) →
        Wrote (O.written sink.old) (O.written sink.new) (O.faults sink.old) (O.faults sink.new)
        (held page.old ++ (spaced fields.now ++ rest)) (held page.new ++ rest)) }
    ensures err { OnErr result ((rest : List ℕ) →
        Broke (O.written sink.old) (O.written sink.new) (O.faults sink.old) (O.faults sink.new)
        (held page.old ++ (spaced fields.now ++ rest))) }
{
    for field in fields {
        put_field(sink, page, field)?;
    }
    Ok(())
}

// Begins a line of the table with these fields.
fn begin_line<O: Sink>(sink: &mut O, page: &mut Page, fields: &[&[u8]]) -> Result<(), Failed>
    ensures column { column_of page.new ≡ column_of page.old }
    ensures ok { OnOk result ((rest : List ℕ) →
        Wrote (O.written sink.old) (O.written sink.new) (O.faults sink.old) (O.faults sink.new)
        (held page.old ++ (codes "#C BLIFWW" ++ (spaced fields.now ++ rest)))
        (held page.new ++ rest)) }
    ensures err { OnErr result ((rest : List ℕ) →
        Broke (O.written sink.old) (O.written sink.new) (O.faults sink.old) (O.faults sink.new)
        (held page.old ++ (codes "#C BLIFWW" ++ (spaced fields.now ++ rest)))) }
{
    page.put(sink, b"#C BLIFWW")?;
    put_fields(sink, page, fields)
}

// Ends a line with these fields.
fn end_line<O: Sink>(sink: &mut O, page: &mut Page, fields: &[&[u8]]) -> Result<(), Failed>
    ensures column { column_of page.new ≡ column_of page.old }
    ensures ok { OnOk result ((rest : List ℕ) →
        Wrote (O.written sink.old) (O.written sink.new) (O.faults sink.old) (O.faults sink.new)
        (held page.old ++ (spaced fields.now ++ (10 ∷ rest))) (held page.new ++ rest)) }
    ensures err { OnErr result ((rest : List ℕ) →
        Broke (O.written sink.old) (O.written sink.new) (O.faults sink.old) (O.faults sink.new)
        (held page.old ++ (spaced fields.now ++ (10 ∷ rest)))) }
{
    put_fields(sink, page, fields)?;
    page.put(sink, b"\n")
}

// Writes a line with these fields, of which one is a name.
fn write_named<O: Sink>(
    sink: &mut O,
    page: &mut Page,
    before: &[&[u8]],
    name: &[u8],
    after: &[&[u8]],
) -> Result<(), Failed>
    ensures column { column_of page.new ≡ column_of page.old }
    ensures ok { OnOk result ((rest : List ℕ) →
        Wrote (O.written sink.old) (O.written sink.new) (O.faults sink.old) (O.faults sink.new)
        (held page.old ++ named_line before.now name.now after.now rest) (held page.new ++ rest)) }
    ensures err { OnErr result ((rest : List ℕ) →
        Broke (O.written sink.old) (O.written sink.new) (O.faults sink.old) (O.faults sink.new)
        (held page.old ++ named_line before.now name.now after.now rest)) }
{
    begin_line(sink, page, before)?;
    page.put(sink, b" ")?;
    put_name(sink, page, name)?;
    end_line(sink, page, after)
}

// Writes a line with these fields, of which none is a name.
fn write_unnamed<O: Sink>(sink: &mut O, page: &mut Page, fields: &[&[u8]]) -> Result<(), Failed>
    ensures column { column_of page.new ≡ column_of page.old }
    ensures ok { OnOk result ((rest : List ℕ) →
        Wrote (O.written sink.old) (O.written sink.new) (O.faults sink.old) (O.faults sink.new)
        (held page.old ++ (codes "#C BLIFWW" ++ (spaced fields.now ++ (10 ∷ rest))))
        (held page.new ++ rest)) }
    ensures err { OnErr result ((rest : List ℕ) →
        Broke (O.written sink.old) (O.written sink.new) (O.faults sink.old) (O.faults sink.new)
        (held page.old ++ (codes "#C BLIFWW" ++ (spaced fields.now ++ (10 ∷ rest))))) }
{
    begin_line(sink, page, fields)?;
    page.put(sink, b"\n")
}

/// Writes the version line of a table.
pub fn write_version<O: Sink>(
    sink: &mut O,
    page: &mut Page,
    period: u64,
    latency: u64,
    contexts: u64,
) -> Result<(), Failed>
    ensures column { column_of page.new ≡ column_of page.old }
    ensures ok { OnOk result ((rest : List ℕ) →
        Wrote (O.written sink.old) (O.written sink.new) (O.faults sink.old) (O.faults sink.new)
        (held page.old ++ (spelled_line (Version period latency contexts) ++ (10 ∷ rest)))
        (held page.new ++ rest)) }
    ensures err { OnErr result ((rest : List ℕ) →
        Broke (O.written sink.old) (O.written sink.new) (O.faults sink.old) (O.faults sink.new)
        (held page.old ++ (spelled_line (Version period latency contexts) ++ (10 ∷ rest)))) }
{
    let mut p_digits = Buffer::new();
    let mut l_digits = Buffer::new();
    let mut c_digits = Buffer::new();
    let p = p_digits.format(period).as_bytes();
    let l = l_digits.format(latency).as_bytes();
    let c = c_digits.format(contexts).as_bytes();
    write_unnamed(sink, page, &[b"2", b"P", p, b"L", l, b"C", c])
}

/// Writes the line of an input or an output.
pub fn write_port<O: Sink>(
    sink: &mut O,
    page: &mut Page,
    kind: &[u8],
    port: &PortLine,
) -> Result<(), Failed>
    ensures column { column_of page.new ≡ column_of page.old }
    ensures ok { OnOk result ((rest : List ℕ) →
        Wrote (O.written sink.old) (O.written sink.new) (O.faults sink.old) (O.faults sink.new)
        (held page.old ++ (port_text kind.now port.now ++ (10 ∷ rest))) (held page.new ++ rest)) }
    ensures err { OnErr result ((rest : List ℕ) →
        Broke (O.written sink.old) (O.written sink.new) (O.faults sink.old) (O.faults sink.new)
        (held page.old ++ (port_text kind.now port.now ++ (10 ∷ rest)))) }
{
    let mut x_digits = Buffer::new();
    let mut y_digits = Buffer::new();
    let x = x_digits.format(port.x).as_bytes();
    let y = y_digits.format(port.y).as_bytes();
    write_named(sink, page, &[kind, x, y], port.name.as_slice(), &[])
}

/// Writes the line of a net.
pub fn write_net<O: Sink>(sink: &mut O, page: &mut Page, net: &NetLine) -> Result<(), Failed>
    ensures column { column_of page.new ≡ column_of page.old }
    ensures ok { OnOk result ((rest : List ℕ) →
        Wrote (O.written sink.old) (O.written sink.new) (O.faults sink.old) (O.faults sink.new)
        (held page.old ++ (spelled_line (Net net.now) ++ (10 ∷ rest))) (held page.new ++ rest)) }
    ensures err { OnErr result ((rest : List ℕ) →
        Broke (O.written sink.old) (O.written sink.new) (O.faults sink.old) (O.faults sink.new)
        (held page.old ++ (spelled_line (Net net.now) ++ (10 ∷ rest)))) }
{
    let mut x_digits = Buffer::new();
    let mut y_digits = Buffer::new();
    let mut offset_digits = Buffer::new();
    let x = x_digits.format(net.x).as_bytes();
    let y = y_digits.format(net.y).as_bytes();
    let offset = offset_digits.format(net.offset).as_bytes();
    let name = net.name.as_slice();
    let path = net.path.as_slice();
    write_named(sink, page, &[b"NET", x, y, offset], name, &[path])
}

fn write_ports<O: Sink>(
    sink: &mut O,
    page: &mut Page,
    kind: &[u8],
    ports: &[PortLine],
) -> Result<(), Failed>
    ensures column { column_of page.new ≡ column_of page.old }
    ensures ok { OnOk result ((rest : List ℕ) →
        Wrote (O.written sink.old) (O.written sink.new) (O.faults sink.old) (O.faults sink.new)
        (held page.old ++ (ended_lines (map (port_text kind.now) ports.now) ++ rest))
        (held page.new ++ rest)) }
    ensures err { OnErr result ((rest : List ℕ) →
        Broke (O.written sink.old) (O.written sink.new) (O.faults sink.old) (O.faults sink.new)
        (held page.old ++ (ended_lines (map (port_text kind.now) ports.now) ++ rest))) }
{
    for port in ports {
        write_port(sink, page, kind, port)?;
    }
    Ok(())
}

fn write_nets<O: Sink>(sink: &mut O, page: &mut Page, nets: &[NetLine]) -> Result<(), Failed>
    ensures column { column_of page.new ≡ column_of page.old }
    ensures ok { OnOk result ((rest : List ℕ) →
        Wrote (O.written sink.old) (O.written sink.new) (O.faults sink.old) (O.faults sink.new)
        (held page.old ++ (ended_lines (map (λ net. spelled_line (Net net)) nets.now) ++ rest))
        (held page.new ++ rest)) }
    ensures err { OnErr result ((rest : List ℕ) →
        Broke (O.written sink.old) (O.written sink.new) (O.faults sink.old) (O.faults sink.new)
        (held page.old ++ (ended_lines (map (λ net. spelled_line (Net net)) nets.now) ++ rest))) }
{
    for net in nets {
        write_net(sink, page, net)?;
    }
    Ok(())
}

/// Writes the lines of a table: the version, the inputs, the outputs and the nets.
pub fn write_table<O: Sink>(sink: &mut O, page: &mut Page, ports: &Ports) -> Result<(), Failed>
    ensures column { column_of page.new ≡ column_of page.old }
    ensures ok { OnOk result ((rest : List ℕ) →
        Wrote (O.written sink.old) (O.written sink.new) (O.faults sink.old) (O.faults sink.new)
        (held page.old ++ (ended_lines (port_lines ports.now) ++ rest)) (held page.new ++ rest)) }
    ensures err { OnErr result ((rest : List ℕ) →
        Broke (O.written sink.old) (O.written sink.new) (O.faults sink.old) (O.faults sink.new)
        (held page.old ++ (ended_lines (port_lines ports.now) ++ rest))) }
{
    write_version(sink, page, ports.p, ports.l, ports.c)?;
    write_ports(sink, page, b"IN", ports.ins.as_slice())?;
    write_ports(sink, page, b"OUT", ports.outs.as_slice())?;
    write_nets(sink, page, ports.nets.as_slice())
}
