// What a command makes of a text.
ghost use Rattle.std.specs.Prelude.{ℕ, take, OnOk, OnErr};
ghost use Rattle.std.specs.Io.KnownBytes.{Appends};
ghost use Rattle.ww_base.specs.Faults.{HasCause};
ghost use Rattle.routed_plans.specs.Carried.{text_of_routed};

use crate::report::{Report, Size};
use blif_write::Lift;
use grid_assembly::size;
use netlist_plans::Planned;
use ww_base::{Failed, Sink, write_all};

/// What a command makes of a text, in memory. The answer's text is made while it is written.
#[derive(Drop)]
pub enum Answer {
    /// The cells of a circuit with the names of its ports, for the text of a netlist.
    Netlist(Lift),
    /// A routed circuit.
    Routed(routed_plans::Routed),
    /// A plan and its port table, for a pattern that is drawn by lanes.
    ByLanes(Planned),
}

// Writes the lines of a routed circuit and then its pattern, or a prefix of them if a write fails.
fn write_routed<O: Sink>(routed: &routed_plans::Routed, out: &mut O) -> Result<(), Failed>
    ensures ok { OnOk result (Appends (O.written out.old) (O.written out.new)
        (text_of_routed routed.now)) }
    ensures front { OnErr result ((n : ℕ) × Appends (O.written out.old) (O.written out.new)
        (take n (text_of_routed routed.now))) }
    ensures cause { HasCause (O.faults out.old) (O.faults out.new) result }
{
    write_all(out, routed.lines.as_slice())?;
    rle_write::write_pattern(&routed.pattern, &routed.ports, out)
}

impl Answer {
    ghost use Rattle.std.specs.Prelude.{◌≡◌};
    ghost use Rattle.wwroute_tool.specs.Answers.{answer_text, report_of, IsWritableAnswer};

    /// Returns what is told beside the answer.
    pub fn report(&self) -> Report
        requires { IsWritableAnswer self.now }
        ensures { result ≡ report_of self.now }
    {
        match self {
            Answer::Netlist(_) => Report::Nothing,
            Answer::Routed(routed) => Report::Routed(Size {
                width: routed.pattern.width,
                height: routed.pattern.height,
                period: routed.ports.p,
            }),
            Answer::ByLanes(planned) => {
                let (width, height) = size(&planned.plan);
                Report::ByLanes(Size {
                    width,
                    height,
                    period: planned.ports.p,
                })
            }
        }
    }

    /// Writes the answer's text, or a prefix of it if a write fails. It takes no memory.
    pub fn write<O: Sink>(&self, out: &mut O) -> Result<(), Failed>
        requires { IsWritableAnswer self.now }
        ensures ok { OnOk result (Appends (O.written out.old) (O.written out.new)
            (answer_text self.now)) }
        ensures front { OnErr result
            ((n : ℕ) × Appends (O.written out.old) (O.written out.new)
            (take n (answer_text self.now))) }
        ensures cause { HasCause (O.faults out.old) (O.faults out.new) result }
    {
        match self {
            Answer::Netlist(lift) => blif_write::write(lift, out),
            Answer::Routed(routed) => write_routed(routed, out),
            Answer::ByLanes(planned) => rle_write::write(&planned.plan, &planned.ports, out),
        }
    }
}
