// What the definitions of how a text reads imply, for every text.

ghost use Rattle.std.specs.Prelude.{Bool, List, ℕ};
ghost use Rattle.pattern_reading.specs.Laws.{HasOnePattern, HasOneRleFault, HasNoFaultIfRead, HasPatternOrFault};
ghost use Rattle.pattern_reading.specs.Laws.{HasReaderAnswer, HasOneReaderAnswer, HasSmallBox, HasOneRun};
ghost use Rattle.pattern_reading.specs.Laws.{HasOneTable, HasOnePortFault, HasNoPortFaultIfRead, HasTableOrFault, HasPortsInside};
ghost use Rattle.pattern_reading.specs.SoundTable.{HasSoundLines, HasSpellableLines};
ghost use Rattle.pattern_laws.specs.Whole.{HasAnswer, HasOneAnswer};
ghost use Rattle.pattern_reading.specs.Laws.{HasAllInLines, HasNumberedLines, HasLinesOfRust, IsLineText, HasFirstLine, HasLineThenRest, HasLoneLine, HasNextPlace};
ghost use Rattle.pattern_reading.specs.Items.{Item};
ghost use Rattle.ww_rule.specs.Grid.{Grid};
ghost use Rattle.pattern_reading.specs.PortLines.{PortForm};
ghost use Rattle.pattern_reading.specs.SpelledPattern.{SpelledItem, HasSpelledPattern, HasSpelledHeader, HasSpelledCount};
ghost use Rattle.pattern_reading.specs.Spelling.{HasItsEscapes, HasItsForms, HasItsName, HasSpelledPorts, HasSamePattern};
ghost use Rattle.pattern_reading.specs.declared.ports.Ports.{Ports};

/// Each text of extended RLE reads as exactly one pattern, or has exactly one first fault.
pub fn pattern_laws()
    ensures pattern { (text : List ℕ) → HasOnePattern text }
    ensures fault { (text : List ℕ) → HasOneRleFault text }
    ensures apart { (text : List ℕ) → HasNoFaultIfRead text }
    ensures total { (text : List ℕ) → HasPatternOrFault text }
{}

/// A reader that refuses boxes past a limit has exactly one answer to each text, and the numbers in
/// a header fit 64 bits.
pub fn reader_laws()
    ensures answer { (text : List ℕ) → HasReaderAnswer text }
    ensures one { (text : List ℕ) → HasOneReaderAnswer text }
    ensures small { (text : List ℕ) (width height : ℕ) → HasSmallBox text width height }
{}

/// In each box the port table of a text reads as exactly one table, whose cells lie in the box, or
/// has exactly one first fault.
pub fn port_laws()
    ensures table { (text : List ℕ) (width height : ℕ) → HasOneTable text width height }
    ensures fault { (text : List ℕ) (width height : ℕ) → HasOnePortFault text width height }
    ensures apart { (text : List ℕ) (width height : ℕ) → HasNoPortFaultIfRead text width height }
    ensures total { (text : List ℕ) (width height : ℕ) → HasTableOrFault text width height }
    ensures inside { (text : List ℕ) (width height : ℕ) → HasPortsInside text width height }
{}

/// Exactly one of these holds for each text: it reads as a pattern with its port table, its pattern
/// has a fault, its box is too large, or its table has a fault in the pattern's box.
pub fn whole_laws()
    ensures answer { (text : List ℕ) → HasAnswer text }
    ensures one { (text : List ℕ) → HasOneAnswer text }
{}

/// The lines of a text are numbered from 1 on, have all of the text in them, and are those of
/// Rust's `lines`. A line put before a text is its first line, so that a text can be read line by
/// line.
pub fn line_laws()
    ensures joined { (text : List ℕ) → HasAllInLines text }
    ensures numbered { (text : List ℕ) → HasNumberedLines text }
    ensures of_rust { (text : List ℕ) → HasLinesOfRust text }
    ensures first { (bytes rest : List ℕ) → IsLineText bytes → HasFirstLine bytes rest }
    ensures cut { (bytes rest : List ℕ) → HasLineThenRest bytes rest }
    ensures lone { (bytes : List ℕ) → HasLoneLine bytes }
{}

/// The sums of counts that give an item's place grow item by item, as a reader keeps them, and no
/// two runs of cells overlap.
pub fn place_laws()
    ensures next { (item : Item) (before : List Item) → HasNextPlace item before }
    ensures one_run { (text : List ℕ) → HasOneRun text }
{}

/// A port table that is spelled before a text without one reads as that table, and changes nothing
/// in the text's pattern. Its names may be any of one or more bytes without a line feed.
pub fn spelled_table_laws()
    ensures ports { (forms : List PortForm) (rest : List ℕ) → HasSpelledPorts forms rest }
    ensures pattern { (forms : List PortForm) (rest : List ℕ) → HasSamePattern forms rest }
    ensures forms { (ports : Ports) → HasItsForms ports }
    ensures escapes { (is_plain : ℕ → Bool) (bytes : List ℕ) → HasItsEscapes is_plain bytes }
    ensures names { (name : List ℕ) → HasItsName name }
    ensures spellable { (ports : Ports) → HasSpellableLines ports }
    ensures sound { (width height : ℕ) (ports : Ports) → HasSoundLines width height ports }
{}

/// A spelled header and spelled items read as the pattern that they spell, however the items are
/// cut into lines.
pub fn spelled_pattern_laws()
    ensures pattern { (header : List ℕ) (lines : List (List SpelledItem)) (rest : List ℕ)
        → HasSpelledPattern header lines rest }
    ensures header { (grid : Grid) → HasSpelledHeader grid }
    ensures count { (count tag : ℕ) → HasSpelledCount count tag }
{}
