// What a command prints.
ghost use Rattle.std.specs.Prelude.{ℕ, take, OnOk, OnErr};
ghost use Rattle.std.specs.Io.KnownBytes.{Appends};
ghost use Rattle.ww_base.specs.Faults.{HasCause};

use blif_write::Lift;
use lists::Bytes;
use netlist_plans::Planned;
use vcd_write::Vcd;
use ww_base::{Failed, Sink, write_all};

/// The output of a command, made in memory.
#[derive(Drop)]
pub enum Output {
    /// All its bytes.
    Lines(Bytes),
    /// A plan and its port table; their text is written row by row.
    Drawing(Planned),
    /// The bits that nets show; their text is written cycle by cycle.
    Waves(Vcd),
    /// The cells of a circuit with the names of its ports; their netlist is written line by line.
    Lifted(Lift),
}

impl Output {
    ghost use Rattle.blifww_tool.specs.Answer.{output_text, IsWritableOutput};

    /// Writes the output, or a prefix of it if a write fails. It takes no memory.
    pub fn write<O: Sink>(&self, out: &mut O) -> Result<(), Failed>
        requires { IsWritableOutput self.now }
        ensures ok { OnOk result (Appends (O.written out.old) (O.written out.new)
            (output_text self.now)) }
        ensures front { OnErr result
            ((n : ℕ) × Appends (O.written out.old) (O.written out.new)
            (take n (output_text self.now))) }
        ensures cause { HasCause (O.faults out.old) (O.faults out.new) result }
    {
        match self {
            Output::Lines(text) => write_all(out, text.as_slice()),
            Output::Drawing(planned) => rle_write::write(&planned.plan, &planned.ports, out),
            Output::Waves(vcd) => vcd_write::write(vcd, out),
            Output::Lifted(lift) => blif_write::write(lift, out),
        }
    }
}
