//! The text of a pattern in extended RLE and its ports, as a definition that contracts cite. It reads as that pattern
//! and those ports; there are laws of it, and some texts letter by letter.
//!
//! All functions here but `tag_of` do nothing: their clauses are the laws and the cases.
//!
//! Theorem: `written_text_reads` (`pattern`, `ports`, `text`), `items_are_runs`, `wrapping_keeps_items`; definition
//! `writer_text`.
#![tactic(auto)]

mod tags;

ghost use Rattle.std.specs.Prelude.{◌≡◌, ◌++◌, List, [], length};
ghost use Rattle.ww_rule.specs.Grid.{Grid};
ghost use Rattle.pattern_reading.specs.declared.ports.Ports.{Ports};
ghost use Rattle.pattern_reading.specs.Pattern.{ReadsAsPattern};
ghost use Rattle.pattern_reading.specs.PortLines.{PortForm};
ghost use Rattle.pattern_reading.specs.PortTable.{ReadsAsPorts};
ghost use Rattle.pattern_writing.specs.Writer.{writer_text};
ghost use Rattle.pattern_writing.specs.Laws.{ItemsSpellTags, ItemsAreLongestRuns, WrappingKeepsItems, WrappedIsLines};
ghost use Rattle.pattern_writing.specs.Samples.{or_grid, or_port_lines, or_net_lines, or_text, or_text_with_nets, bare_grid, bare_lines, bare_text, mixed_grid, mixed_text, empty_grid, empty_text};
ghost use Rattle.pattern_writing.specs.SamplePorts.{or_ports, bare_ports};
ghost use Rattle.pattern_writing.specs.WrittenText.{HasWrittenPattern, HasWrittenPorts, HasWrittenText};

pub use tags::tag_of;

/// The text that is written reads as what it was written for: a pattern whose sizes fit 64 bits,
/// and a port table whose lines can be spelled and are without fault in the pattern's box.
pub fn written_text_reads()
    ensures pattern { (grid : Grid) (forms : List PortForm) → HasWrittenPattern grid forms }
    ensures ports { (grid : Grid) (forms : List PortForm) → HasWrittenPorts grid forms }
    ensures text { (grid : Grid) (ports : Ports) → HasWrittenText grid ports }
{}

/// The definition gives these texts for an OR gate in a box of 33 by 32 cells, for a box without
/// cells, for one with cells of all four states and empty rows, and for one of empty cells.
pub fn samples_are_so()
    ensures gate { writer_text or_grid or_port_lines ≡ or_text }
    ensures gate_length { length or_text ≡ 246 }
    ensures gate_with_nets { writer_text or_grid (or_port_lines ++ or_net_lines) ≡
        or_text_with_nets }
    ensures gate_with_nets_length { length or_text_with_nets ≡ 321 }
    ensures bare { writer_text bare_grid bare_lines ≡ bare_text }
    ensures mixed { writer_text mixed_grid [] ≡ mixed_text }
    ensures empty { writer_text empty_grid [] ≡ empty_text }
{}

/// The items of every list of tags spell these tags, and each item is as long as it can be.
pub fn items_are_runs()
    ensures spell { ItemsSpellTags }
    ensures longest { ItemsAreLongestRuns }
{}

/// Wrapping adds only line ends. If each item fits on a line, no item is cut, no line
/// is too long, and no line ends before an item that it has room for.
pub fn wrapping_keeps_items()
    ensures kept { WrappingKeepsItems }
    ensures on_lines { WrappedIsLines }
{}

/// The text of an OR gate, with its net lines and without them, reads as its drawing and its ports.
pub fn gate_reads()
    ensures pattern { ReadsAsPattern or_text or_grid }
    ensures ports { ReadsAsPorts or_text 33 32 (record or_ports { nets = [] }) }
    ensures pattern_with_nets { ReadsAsPattern or_text_with_nets or_grid }
    ensures ports_with_nets { ReadsAsPorts or_text_with_nets 33 32 or_ports }
{}

/// The text of a box without cells and without ports reads as that box and a table without ports.
pub fn bare_reads()
    ensures pattern { ReadsAsPattern bare_text bare_grid }
    ensures ports { ReadsAsPorts bare_text 0 0 bare_ports }
{}
