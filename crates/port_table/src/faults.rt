// The first fault of a table.
ghost use Rattle.std.specs.Prelude.{◌≡◌, ◌==◌, ◌<◌, Some, None, [], ◌∷◌, ◌++◌, List, map, option_map, length, slice_get, IfOk};
ghost use Rattle.pattern_reading.specs.PortLines as lines;
ghost use Rattle.pattern_reading.specs.PortTable.{is_version, is_outside, fault_of_form, faults_after};
ghost use Rattle.port_table.specs.Lent.{form_of, table_line_of, port_fault_of};
ghost use Rattle.port_table.specs.Seen.{HasSeen};

use crate::forms::PortForm;
use crate::seen::Seen;
use crate::table::TableLine;
use pattern_reading::PortFaultKind;
use std::alloc::{AllocError, Global};

/// A fault of a port table, and the number of its line in the text, from 1.
#[derive(Clone, Copy, Debug)]
pub struct PortFault {
    pub kind: PortFaultKind,
    pub line: u64,
}

// Whether a line is the version line.
fn is_version(form: &PortForm) -> bool
    ensures { result ≡ is_version (form_of form.now) }
{
    matches!(form, PortForm::Version { .. })
}

// Whether the cell of a line is outside a box; a version line has no cell.
fn is_outside(width: u64, height: u64, form: &PortForm) -> bool
    ensures { result ≡ is_outside width height (form_of form.now) }
{
    match form {
        PortForm::Version { .. } => false,
        PortForm::In(port) | PortForm::Out(port) => port.x >= width || port.y >= height,
        PortForm::Net(net) => net.x >= width || net.y >= height,
    }
}

// What is at fault in a line, by the lines seen before it; `is_first` says that there are none. A
// line without a fault is then seen too.
fn fault_of_form<'a>(
    seen: &mut Seen<'a>,
    is_first: bool,
    width: u64,
    height: u64,
    form: &'a Option<PortForm>,
) -> Result<Option<PortFaultKind>, AllocError>
    ensures fault { IfOk result (λ fault. (before : List lines.PortForm) → HasSeen seen.old before →
        is_first ≡ (length before == 0) →
        fault ≡ fault_of_form width height (map Some before) (option_map form_of form.now)) }
    ensures seen { IfOk result (λ fault. (before : List lines.PortForm) (next : lines.PortForm) →
        HasSeen seen.old before → fault ≡ None →
        option_map form_of form.now ≡ Some next → HasSeen seen.new (before ++ next ∷ [])) }
{
    let Some(form) = form else {
        return Ok(Some(PortFaultKind::BadLine));
    };
    if is_version(form) != is_first {
        return Ok(Some(PortFaultKind::BadOrder));
    }
    if is_outside(width, height, form) {
        return Ok(Some(PortFaultKind::CellOutside));
    }
    let is_new = seen.insert(form)?;
    Ok(if is_new {
        None
    } else {
        Some(PortFaultKind::Twice)
    })
}

// The first fault of a table's lines, none of which is seen yet.
fn first_fault_unseen<'a>(
    seen: &mut Seen<'a>,
    lines: &'a [TableLine],
    width: u64,
    height: u64,
) -> Result<Option<PortFault>, AllocError>
    requires { HasSeen seen.old [] }
    ensures { IfOk result (λ fault.
        option_map port_fault_of fault ≡
        slice_get (faults_after width height [] (map table_line_of lines.now)) 0) }
{
    for (index, line) in lines.iter().enumerate() {
        if let Some(kind) = fault_of_form(seen, index == 0, width, height, &line.form)? {
            return Ok(Some(PortFault {
                kind,
                line: line.number,
            }));
        }
    }
    Ok(None)
}

/// Returns the first fault of a table's lines in a box of this width and height, or `None` if they
/// have none.
pub fn first_fault(
    alloc: Global,
    lines: &[TableLine],
    width: u64,
    height: u64,
) -> Result<Option<PortFault>, AllocError>
    ensures { IfOk result (λ fault.
        option_map port_fault_of fault ≡
        slice_get (faults_after width height [] (map table_line_of lines.now)) 0) }
{
    let mut seen = Seen::new(alloc);
    first_fault_unseen(&mut seen, lines, width, height)
}
