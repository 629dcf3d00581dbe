// The table that the lines make.
ghost use Rattle.std.specs.Prelude.{◌≡◌, ◌++◌, [], filter_map, IfOk, OnOk};
ghost use Rattle.pattern_reading.specs.PortTable.{input_of, output_of, period_in, latency_in, contexts_in, ports_of};
ghost use Rattle.pattern_reading.specs.PortTable as table;
ghost use Rattle.port_table.specs.Lent.{forms_in, said_by};

use crate::forms::PortForm;
use crate::table::TableLine;
use lists::List;
use pattern_reading::{NetLine, PortLine, Ports};
use std::alloc::{AllocError, Global};

// The period, the latency and the number of contexts of the version line, or 32, 0 and 1 if there
// is none.
fn version_of(lines: &[TableLine]) -> (u64, u64, u64)
    ensures period { result.0 ≡ period_in (forms_in lines.now) }
    ensures latency { result.1 ≡ latency_in (forms_in lines.now) }
    ensures contexts { result.2 ≡ contexts_in (forms_in lines.now) }
{
    for line in lines {
        if let Some(
            PortForm::Version {
                period,
                latency,
                contexts,
            },
        ) = &line.form
        {
            return (*period, *latency, *contexts);
        }
    }
    (32, 0, 1)
}

// The ports and nets of the lines so far.
#[derive(Drop)]
struct Lists {
    ins: Vec<PortLine>,
    outs: Vec<PortLine>,
    nets: Vec<NetLine>,
}

impl Lists {
    fn push(&mut self, form: Option<PortForm>) -> Result<(), AllocError>
        ensures ins { OnOk result (self.new.ins.items ≡
            self.old.ins.items ++ said_by input_of form) }
        ensures outs { OnOk result (self.new.outs.items ≡
            self.old.outs.items ++ said_by output_of form) }
        ensures nets { OnOk result (self.new.nets.items ≡
            self.old.nets.items ++ said_by table.net_of form) }
    {
        match form {
            None | Some(PortForm::Version { .. }) => {}
            Some(PortForm::In(port)) => self.ins.push(port)?,
            Some(PortForm::Out(port)) => self.outs.push(port)?,
            Some(PortForm::Net(net)) => self.nets.push(net)?,
        }
        Ok(())
    }

    // Adds the lines of a table to empty lists.
    fn push_all(&mut self, lines: Vec<TableLine>) -> Result<(), AllocError>
        requires no_ins { self.old.ins.items ≡ [] }
        requires no_outs { self.old.outs.items ≡ [] }
        requires no_nets { self.old.nets.items ≡ [] }
        ensures ins { OnOk result (self.new.ins.items ≡
            filter_map input_of (forms_in lines.items)) }
        ensures outs { OnOk result (self.new.outs.items ≡
            filter_map output_of (forms_in lines.items)) }
        ensures nets { OnOk result (self.new.nets.items ≡
            filter_map table.net_of (forms_in lines.items)) }
    {
        for line in lines {
            self.push(line.form)?;
        }
        Ok(())
    }
}

/// Returns the table that the lines make, each kind in the order of the lines.
pub fn ports_of(alloc: Global, lines: Vec<TableLine>) -> Result<Ports, AllocError>
    ensures { IfOk result (λ ports. ports ≡ ports_of (forms_in lines.items)) }
{
    let (p, l, c) = version_of(&lines);
    let mut lists = Lists {
        ins: Vec::new(alloc),
        outs: Vec::new(alloc),
        nets: Vec::new(alloc),
    };
    lists.push_all(lines)?;
    Ok(Ports {
        p,
        l,
        c,
        ins: List::of(lists.ins),
        outs: List::of(lists.outs),
        nets: List::of(lists.nets),
    })
}
