// The names under which nets are shown.
ghost use Rattle.std.specs.Prelude.{◌≡◌, ◌<◌, ◌++◌, true, All, IfOk, OnOk, map};
ghost use Rattle.std.specs.Fmt.{digit_glyph};
ghost use Rattle.pattern_reading.specs.Escapes.{escaped_byte};
ghost use Rattle.vcd_write.specs.References.{escaped_reference, is_plain_in_reference};
ghost use Rattle.vcd_write.specs.NetWaves.{IsByteName, nets_in, nets_in_contexts, path_before, reference_of};

use lists::{Bytes, List};
use pattern_reading::{NetLine, Ports};
use std::alloc::{AllocError, Global};
use streams::with_context;

// Whether a byte stands for itself in a reference.
fn is_plain_in_reference(byte: u8) -> bool
    ensures { result ≡ is_plain_in_reference byte }
{
    byte.is_ascii_graphic() && byte != b'%' && byte != b'$'
}

// The hexadecimal digit of a number, in upper case.
fn hex_digit(n: u8) -> u8
    requires { n < 16 }
    ensures { result ≡ digit_glyph true n }
{
    if n < 10 { b'0' + n } else { b'A' + (n - 10) }
}

// Adds a byte, or the escape that stands for it.
fn push_byte(text: &mut Vec<u8>, byte: u8) -> Result<(), AllocError>
    ensures text { OnOk result (text.new.items ≡
        text.old.items ++ escaped_byte is_plain_in_reference byte) }
    ensures small { byte < 256 }
{
    if is_plain_in_reference(byte) {
        return Ok(text.push(byte)?);
    }
    text.extend_from_slice(&[b'%', hex_digit(byte / 16), hex_digit(byte % 16)])
}

// Adds a name, with escapes.
fn push_name(text: &mut Vec<u8>, name: &[u8]) -> Result<(), AllocError>
    ensures text { OnOk result (text.new.items ≡ text.old.items ++ escaped_reference name.now) }
    ensures bytes { OnOk result (IsByteName name.now) }
{
    for byte in name {
        push_byte(text, *byte)?;
    }
    Ok(())
}

// The path of a model, as it stands before a name.
fn path_before(alloc: Global, path: &[u8]) -> Result<Vec<u8>, AllocError>
    ensures { IfOk result (λ text. text.items ≡ path_before path.now) }
{
    if path == b"-".as_slice() {
        return Ok(Vec::new(alloc));
    }
    let mut text = path.to_vec(alloc)?;
    text.push(b'/')?;
    Ok(text)
}

// The reference of a net in a context.
fn reference_of(
    alloc: Global,
    contexts: u64,
    context: u64,
    net: &NetLine,
) -> Result<Vec<u8>, AllocError>
    ensures reference { IfOk result (λ text.
        text.items ≡ reference_of contexts (record { context = context; net = net.now })
        ) }
    ensures bytes { OnOk result (IsByteName net.now.name) }
{
    let mut text = path_before(alloc, net.path.as_slice())?;
    push_name(&mut text, net.name.as_slice())?;
    with_context(alloc, contexts, context, &text)
}

// Adds the references of nets in a context.
fn push_context(
    alloc: Global,
    references: &mut Vec<Bytes>,
    contexts: u64,
    context: u64,
    nets: &[NetLine],
) -> Result<(), AllocError>
    ensures references { OnOk result (
        references.new.items
        ≡ references.old.items ++ map (reference_of contexts) (nets_in context nets.now)
        ) }
    ensures bytes { OnOk result (All (λ net. IsByteName net.name) nets.now) }
{
    for net in nets {
        references.push(List::of(reference_of(alloc, contexts, context, net)?))?;
    }
    Ok(())
}

/// Returns the references of all nets in each context, those of context 0 first. Each name consists
/// of bytes.
pub fn references_of(alloc: Global, ports: &Ports) -> Result<List<Bytes>, AllocError>
    requires { 0 < ports.now.c }
    ensures references { IfOk result (λ references.
        references ≡ map (reference_of ports.now.c) (nets_in_contexts ports.now)
        ) }
    ensures bytes { OnOk result (All (λ net. IsByteName net.name) ports.now.nets) }
{
    let mut references = Vec::new(alloc);
    if ports.nets.len() == 0 {
        return Ok(List::of(references));
    }
    for context in 0..ports.c {
        push_context(
            alloc,
            &mut references,
            ports.c,
            context,
            ports.nets.as_slice(),
        )?;
    }
    Ok(List::of(references))
}
