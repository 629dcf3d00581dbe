// Lines of words, with a space between.
ghost use Rattle.std.specs.Prelude.{ℕ, List, ◌∷◌, ◌++◌, map, OnOk, OnErr};
ghost use Rattle.ww_base.specs.Pages.{held};
ghost use Rattle.ww_base.specs.Progress.{Wrote, Broke};
ghost use Rattle.blif_text.specs.declared.logical.Logical.{Logical};
ghost use Rattle.lifted_designs.specs.Lines.{worded_line};
ghost use Rattle.blif_write.specs.Text.{worded_text};
ghost use Rattle.blif_write.specs.Words.{words_after_spaces, word_in};

use crate::Lift;
use crate::word::LineWord;
use crate::words::write_word;
use lists::Bytes;
use ww_base::{Failed, Page, Sink};

// Writes a space and a word.
fn write_after_space<O: Sink>(
    sink: &mut O,
    page: &mut Page,
    lift: &Lift,
    word: LineWord,
) -> Result<(), Failed>
    ensures ok { OnOk result ((rest : List ℕ) →
        Wrote (O.written sink.old) (O.written sink.new) (O.faults sink.old) (O.faults sink.new)
        (held page.old ++ ((32 ∷ word_in lift.now word.entry) ++ rest)) (held page.new ++ rest)) }
    ensures err { OnErr result ((rest : List ℕ) →
        Broke (O.written sink.old) (O.written sink.new) (O.faults sink.old) (O.faults sink.new)
        (held page.old ++ ((32 ∷ word_in lift.now word.entry) ++ rest))) }
{
    page.put(sink, b" ")?;
    write_word(sink, page, lift, word)
}

// Writes words, each after a space.
fn write_words<O: Sink>(
    sink: &mut O,
    page: &mut Page,
    lift: &Lift,
    words: &[LineWord],
) -> Result<(), Failed>
    ensures ok { OnOk result ((rest : List ℕ) →
        Wrote (O.written sink.old) (O.written sink.new) (O.faults sink.old) (O.faults sink.new)
        (held page.old ++ (words_after_spaces (word_in lift.now) words.now ++ rest))
        (held page.new ++ rest)) }
    ensures err { OnErr result ((rest : List ℕ) →
        Broke (O.written sink.old) (O.written sink.new) (O.faults sink.old) (O.faults sink.new)
        (held page.old ++ (words_after_spaces (word_in lift.now) words.now ++ rest))) }
{
    for word in words {
        write_after_space(sink, page, lift, *word)?;
    }
    Ok(())
}

// Writes names, each after a space.
fn write_names<O: Sink>(
    sink: &mut O,
    page: &mut Page,
    lift: &Lift,
    names: &[Bytes],
) -> Result<(), Failed>
    ensures ok { OnOk result ((rest : List ℕ) →
        Wrote (O.written sink.old) (O.written sink.new) (O.faults sink.old) (O.faults sink.new)
        (held page.old ++ (words_after_spaces (λ name. name) names.now ++ rest))
        (held page.new ++ rest)) }
    ensures err { OnErr result ((rest : List ℕ) →
        Broke (O.written sink.old) (O.written sink.new) (O.faults sink.old) (O.faults sink.new)
        (held page.old ++ (words_after_spaces (λ name. name) names.now ++ rest))) }
{
    for name in names {
        write_after_space(sink, page, lift, LineWord::Bytes(name.as_slice()))?;
    }
    Ok(())
}

/// Writes a line: its first word, and the other words.
pub fn write_line<O: Sink>(
    sink: &mut O,
    page: &mut Page,
    lift: &Lift,
    first: &[u8],
    words: &[LineWord],
) -> Result<(), Failed>
    ensures ok { OnOk result ((n : ℕ) (more : List Logical) →
        Wrote (O.written sink.old) (O.written sink.new) (O.faults sink.old) (O.faults sink.new)
        (held page.old ++ worded_text (worded_line n
        (first.now ∷ map (word_in lift.now) words.now) ∷ more))
        (held page.new ++ worded_text more)) }
    ensures err { OnErr result ((n : ℕ) (more : List Logical) →
        Broke (O.written sink.old) (O.written sink.new) (O.faults sink.old) (O.faults sink.new)
        (held page.old ++ worded_text (worded_line n
        (first.now ∷ map (word_in lift.now) words.now) ∷ more))) }
{
    page.put(sink, first)?;
    write_words(sink, page, lift, words)?;
    page.put(sink, b"\n")
}

/// Writes a line: its first word, and names.
pub fn write_name_line<O: Sink>(
    sink: &mut O,
    page: &mut Page,
    lift: &Lift,
    first: &[u8],
    names: &[Bytes],
) -> Result<(), Failed>
    ensures ok { OnOk result ((n : ℕ) (more : List Logical) →
        Wrote (O.written sink.old) (O.written sink.new) (O.faults sink.old) (O.faults sink.new)
        (held page.old ++ worded_text (worded_line n (first.now ∷ names.now) ∷ more))
        (held page.new ++ worded_text more)) }
    ensures err { OnErr result ((n : ℕ) (more : List Logical) →
        Broke (O.written sink.old) (O.written sink.new) (O.faults sink.old) (O.faults sink.new)
        (held page.old ++ worded_text (worded_line n (first.now ∷ names.now) ∷ more))) }
{
    page.put(sink, first)?;
    write_names(sink, page, lift, names)?;
    page.put(sink, b"\n")
}
