// The forms of the table's lines.
ghost use Rattle.std.specs.Prelude.{◌≡◌, ◌==◌, [], ◌∷◌, take, map, option_map, Some, IfOk};
ghost use Rattle.std.specs.List.{slice_split};
ghost use Rattle.std.specs.Str.{byte};
ghost use Rattle.pattern_reading.specs.PortLines.{form_of_fields, has_room, count_in, uncounted, version_in, version_named, port_in, net_in};
ghost use Rattle.pattern_reading.specs.declared.ports.TableVersion.TheVariants.{Raw};
ghost use Rattle.port_table.specs.Lent.{form_of};

use crate::names::name_of_field;
use crate::numbers::path_in;
use lists::copied;
use pattern_lines::number_in;
use pattern_reading::{NetLine, PortLine, TableVersion};
use std::alloc::{AllocError, Global};

/// The content of a line of the table, by its form.
#[derive(Drop)]
pub enum PortForm {
    /// `2 P p L l C c`; in version 1 `1 P p L l C c`, or `1 P p L l` if c is 1.
    Version {
        period: u64,
        latency: u64,
        contexts: u64,
    },
    /// `IN x y name`
    In(PortLine),
    /// `OUT x y name`
    Out(PortLine),
    /// `NET x y offset name path`
    Net(NetLine),
}

// Whether a period has room for so many contexts: it has room for one, and for more if each has 32
// generations of it.
fn has_room(period: u64, contexts: u64) -> bool
    ensures { result ≡ has_room period contexts }
{
    contexts == 1 || (contexts != 0 && contexts <= period / 32)
}

// The number of contexts, after its word `C`.
fn count_in(c_word: &[u8], c: &[u8]) -> Option<u64>
    ensures { result ≡ count_in c_word.now c.now }
{
    if c_word == b"C".as_slice() {
        number_in(c)
    } else {
        None
    }
}

/// Returns the version that a word names.
pub fn version_named(word: &[u8]) -> Option<TableVersion>
    ensures { result ≡ version_named word.now }
{
    if word == b"1".as_slice() {
        Some(TableVersion::Raw)
    } else if word == b"2".as_slice() {
        Some(TableVersion::Escaped)
    } else {
        None
    }
}

// The number of contexts if a version line does not give it.
fn uncounted(version: TableVersion) -> Option<u64>
    ensures { result ≡ uncounted version }
{
    match version {
        TableVersion::Raw => Some(1),
        TableVersion::Escaped => None,
    }
}

// The content of a version line, by the fields after the version: its period is not 0, and has room
// for its contexts.
fn version_in(
    p_word: &[u8],
    p: &[u8],
    l_word: &[u8],
    l: &[u8],
    contexts: Option<u64>,
) -> Option<PortForm>
    ensures { option_map form_of result ≡ version_in p_word.now p.now l_word.now l.now contexts }
{
    if p_word != b"P".as_slice() || l_word != b"L".as_slice() {
        return None;
    }
    let period = number_in(p)?;
    let latency = number_in(l)?;
    let contexts = contexts?;
    if period == 0 || !has_room(period, contexts) {
        return None;
    }
    Some(PortForm::Version {
        period,
        latency,
        contexts,
    })
}

// A version line that does not give the number of contexts.
fn uncounted_line(
    number: &[u8],
    p_word: &[u8],
    p: &[u8],
    l_word: &[u8],
    l: &[u8],
) -> Option<PortForm>
    ensures { option_map form_of result ≡
        form_of_fields Raw (number.now ∷ p_word.now ∷ p.now ∷ l_word.now ∷ l.now ∷ []) }
{
    let version = version_named(number)?;
    version_in(p_word, p, l_word, l, uncounted(version))
}

// A version line that gives the number of contexts.
fn counted_line(
    number: &[u8],
    p_word: &[u8],
    p: &[u8],
    l_word: &[u8],
    l: &[u8],
    c_word: &[u8],
    c: &[u8],
) -> Option<PortForm>
    ensures { option_map form_of result ≡
        form_of_fields Raw (number.now ∷ p_word.now ∷ p.now ∷ l_word.now ∷ l.now ∷ c_word.now ∷
        c.now ∷ []) }
{
    version_named(number)?;
    version_in(p_word, p, l_word, l, count_in(c_word, c))
}

fn port_in(
    alloc: Global,
    version: TableVersion,
    x: &[u8],
    y: &[u8],
    name: &[u8],
) -> Result<Option<PortLine>, AllocError>
    ensures { IfOk result (λ port. port ≡ port_in version x.now y.now name.now) }
{
    let Some(x) = number_in(x) else {
        return Ok(None);
    };
    let Some(y) = number_in(y) else {
        return Ok(None);
    };
    let Some(name) = name_of_field(alloc, version, name)? else {
        return Ok(None);
    };
    Ok(Some(PortLine { x, y, name }))
}

fn net_in(
    alloc: Global,
    version: TableVersion,
    x: &[u8],
    y: &[u8],
    offset: &[u8],
    name: &[u8],
    path: &[u8],
) -> Result<Option<NetLine>, AllocError>
    ensures { IfOk result (λ net. net ≡ net_in version x.now y.now offset.now name.now path.now) }
{
    let Some(offset) = number_in(offset) else {
        return Ok(None);
    };
    let Some(path) = path_in(path) else {
        return Ok(None);
    };
    let Some(port) = port_in(alloc, version, x, y, name)? else {
        return Ok(None);
    };
    Ok(Some(NetLine {
        x: port.x,
        y: port.y,
        offset,
        name: port.name,
        path: copied(alloc, path)?,
    }))
}

// The line of an input or an output.
fn named_port(
    alloc: Global,
    version: TableVersion,
    kind: &[u8],
    x: &[u8],
    y: &[u8],
    name: &[u8],
) -> Result<Option<PortForm>, AllocError>
    ensures { IfOk result (λ form.
        option_map form_of form
        ≡ form_of_fields version (kind.now ∷ x.now ∷ y.now ∷ name.now ∷ [])
        ) }
{
    let is_input = kind == b"IN".as_slice();
    if !is_input && kind != b"OUT".as_slice() {
        return Ok(None);
    }
    let Some(port) = port_in(alloc, version, x, y, name)? else {
        return Ok(None);
    };
    Ok(Some(if is_input {
        PortForm::In(port)
    } else {
        PortForm::Out(port)
    }))
}

// The line of a net.
fn named_net(
    alloc: Global,
    version: TableVersion,
    kind: &[u8],
    x: &[u8],
    y: &[u8],
    offset: &[u8],
    name: &[u8],
    path: &[u8],
) -> Result<Option<PortForm>, AllocError>
    ensures { IfOk result (λ form. option_map form_of form ≡
        form_of_fields version (kind.now ∷ x.now ∷ y.now ∷ offset.now ∷ name.now ∷ path.now ∷ [])) }
{
    if kind != b"NET".as_slice() {
        return Ok(None);
    }
    let Some(net) = net_in(alloc, version, x, y, offset, name, path)? else {
        return Ok(None);
    };
    Ok(Some(PortForm::Net(net)))
}

// The form of a line with these fields in a table of a version, if it has one of the four.
fn form_of_fields(
    alloc: Global,
    version: TableVersion,
    fields: &[&[u8]],
) -> Result<Option<PortForm>, AllocError>
    ensures { IfOk result (λ form.
        option_map form_of form ≡ form_of_fields version (map (λ f. f.now) fields.now)
        ) }
{
    match *fields {
        [kind, x, y, name] => named_port(alloc, version, kind, x, y, name),
        [number, p_word, p, l_word, l] => Ok(uncounted_line(number, p_word, p, l_word, l)),
        [kind, x, y, offset, name, path] => {
            named_net(alloc, version, kind, x, y, offset, name, path)
        }
        [number, p_word, p, l_word, l, c_word, c] => {
            Ok(counted_line(number, p_word, p, l_word, l, c_word, c))
        }
        _ => Ok(None),
    }
}

// The first eight parts of an entry between its spaces: no form has more than seven.
fn fields_of(alloc: Global, entry: &[u8]) -> Result<Vec<&[u8]>, AllocError>
    ensures { IfOk result (λ fields.
        map (λ f. f.now) fields.items ≡ take 8 (slice_split (λ b. b == byte " ") entry.now)
        ) }
{
    entry.split(|b| *b == b' ').take(8).collect(alloc)
}

/// Returns the form of a line with this entry in a table of a version, or `None` if it has none.
/// The fields of a line are separated by single spaces.
pub fn form_in(
    alloc: Global,
    version: TableVersion,
    entry: &[u8],
) -> Result<Option<PortForm>, AllocError>
    ensures { IfOk result (λ form.
        option_map form_of form
        ≡ form_of_fields version (slice_split (λ b. b == byte " ") entry.now)
        ) }
{
    let fields = fields_of(alloc, entry)?;
    form_of_fields(alloc, version, &fields)
}
