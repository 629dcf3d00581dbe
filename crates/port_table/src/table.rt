// The lines of a text's table.
ghost use Rattle.std.specs.Prelude.{◌≡◌, ◌==◌, not, [], map, option_map, IfOk, OnOk, codes};
ghost use Rattle.std.specs.List.{prefix_len};
ghost use Rattle.std.specs.Option.{option_copied};
ghost use Rattle.pattern_reading.specs.Numbers.{after_prefix};
ghost use Rattle.pattern_reading.specs.PortLines.{first_field, table_line, table_of, table_version};
ghost use Rattle.pattern_lines.specs.Lines.{line_of};
ghost use Rattle.port_table.specs.Lent.{table_line_of};

use crate::forms::{PortForm, form_in, version_named};
use pattern_lines::{Line, split_line};
use pattern_reading::TableVersion;
use std::alloc::{AllocError, Global};

/// A line of the table: its number, and its form, if it has one.
#[derive(Drop)]
pub struct TableLine {
    pub number: u64,
    pub form: Option<PortForm>,
}

// What follows the word with which each line of the table begins.
fn table_entry(bytes: &[u8]) -> Option<&[u8]>
    ensures { option_copied result ≡ after_prefix (codes "#C BLIFWW ") bytes.now }
{
    bytes.strip_prefix(b"#C BLIFWW ")
}

// How many bytes stand before the first space, or how many there are if there is none.
fn bytes_before_space(entry: &[u8]) -> usize
    ensures { result ≡ prefix_len (λ b. not (b == 32)) entry.now }
{
    for (i, byte) in entry.iter().enumerate() {
        if *byte == b' ' {
            return i;
        }
    }
    entry.len()
}

// The first field of an entry.
fn first_field(entry: &[u8]) -> &[u8]
    ensures { result.now ≡ first_field entry.now }
{
    &entry[..bytes_before_space(entry)]
}

// The version of a text's table, which its first line names.
fn table_version(text: &[u8]) -> TableVersion
    ensures { result ≡ table_version text.now }
{
    let mut lines_before = 0;
    let mut rest = text;
    while !rest.is_empty() {
        let (line, after) = split_line(lines_before, rest);
        if !line.is_skipped() {
            return TableVersion::Raw;
        }
        if let Some(entry) = table_entry(line.bytes) {
            return version_named(first_field(entry)).unwrap_or(TableVersion::Raw);
        }
        lines_before += 1;
        rest = after;
    }
    TableVersion::Raw
}

// The line as a line of a table of a version, if it is one.
fn table_line(
    alloc: Global,
    version: TableVersion,
    line: Line<'_>,
) -> Result<Option<TableLine>, AllocError>
    ensures { IfOk result (λ found.
        option_map table_line_of found ≡ table_line version (line_of line.entry)
        ) }
{
    match table_entry(line.bytes) {
        None => Ok(None),
        Some(entry) => Ok(Some(TableLine {
            number: line.number,
            form: form_in(alloc, version, entry)?,
        })),
    }
}

// Adds the lines of a text's table to an empty list.
fn push_table_lines(
    table: &mut Vec<TableLine>,
    alloc: Global,
    version: TableVersion,
    text: &[u8],
) -> Result<(), AllocError>
    requires empty { table.old.items ≡ [] }
    requires version { version ≡ table_version text.now }
    ensures { OnOk result (map table_line_of table.new.items ≡ table_of text.now) }
{
    let mut lines_before = 0;
    let mut rest = text;
    while !rest.is_empty() {
        let (line, after) = split_line(lines_before, rest);
        if !line.is_skipped() {
            return Ok(());
        }
        if let Some(entry) = table_line(alloc, version, line)? {
            table.push(entry)?;
        }
        lines_before += 1;
        rest = after;
    }
    Ok(())
}

/// Returns the lines of a text's table, in order. They stand before its header, or, if it has none,
/// anywhere in the text.
pub fn table_lines(alloc: Global, text: &[u8]) -> Result<Vec<TableLine>, AllocError>
    ensures { IfOk result (λ lines. map table_line_of lines.items ≡ table_of text.now) }
{
    let version = table_version(text);
    let mut table = Vec::new(alloc);
    push_table_lines(&mut table, alloc, version, text)?;
    Ok(table)
}
