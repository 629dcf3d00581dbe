// The ports and nets of the lines so far.
ghost use Rattle.std.specs.Prelude.{◌≡◌, not, [], ◌∷◌, ◌++◌, List, IfOk, OnOk};
ghost use Rattle.std.specs.List.{list_any};
ghost use Rattle.pattern_reading.specs.PortLines as lines;
ghost use Rattle.pattern_reading.specs.PortTable.{is_same_port};
ghost use Rattle.port_table.specs.Lent.{form_of};
ghost use Rattle.port_table.specs.Seen.{HasSeen};

use crate::forms::PortForm;
use std::alloc::{AllocError, Global};
use std::collections::BTreeSet;

/// The names of the inputs and the outputs, and the names and paths of the nets, of some lines.
#[derive(Drop)]
pub struct Seen<'a> {
    ins: BTreeSet<&'a [u8]>,
    outs: BTreeSet<&'a [u8]>,
    nets: BTreeSet<(&'a [u8], &'a [u8])>,
}

impl<'a> Seen<'a> {
    /// Returns the names and paths of no lines.
    pub fn new(alloc: Global) -> Seen<'a>
        ensures { HasSeen result [] }
    {
        Seen {
            ins: BTreeSet::new(alloc),
            outs: BTreeSet::new(alloc),
            nets: BTreeSet::new(alloc),
        }
    }

    /// Adds a line, and returns whether its name was new, or, for a net, its name with its path.
    pub fn insert(&mut self, form: &'a PortForm) -> Result<bool, AllocError>
        ensures added { IfOk result (λ added. (before : List lines.PortForm) →
            HasSeen self.old before →
            added ≡ not (list_any (is_same_port (form_of form.now)) before)) }
        ensures seen { OnOk result ((before : List lines.PortForm) → HasSeen self.old before →
            HasSeen self.new (before ++ form_of form.now ∷ [])) }
    {
        let is_new = match form {
            PortForm::Version { .. } => true,
            PortForm::In(port) => self.ins.insert(port.name.as_slice())?,
            PortForm::Out(port) => self.outs.insert(port.name.as_slice())?,
            PortForm::Net(net) => self
                .nets
                .insert((net.name.as_slice(), net.path.as_slice()))?,
        };
        Ok(is_new)
    }
}
