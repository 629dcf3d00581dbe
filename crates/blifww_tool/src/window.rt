// `window`: a part of the plane that a pattern has come to, as lines.
ghost use Rattle.std.specs.Prelude.{◌≡◌, map, string_bytes, length, position, reverse, IfOk, IfErr};
ghost use Rattle.streams.specs.Cuts.{bits_in, is_equals_sign};
ghost use Rattle.command_words.specs.Shapes.{window};
ghost use Rattle.blifww_tool.specs.Answer.{output_text, IsWritableOutput};
ghost use Rattle.blifww_tool.specs.Commands.{Prints, HasTextCause};
ghost use Rattle.blifww_tool.specs.Viewing.{cycles_in};

use crate::driven::{Driven, driven_by};
use crate::output::Output;
use command_words::View;
use program_runs::TextError;
use std::alloc::Global;

// How many bytes stand after the last `=`.
fn bytes_after(word: &[u8]) -> Option<usize>
    ensures { result ≡ position is_equals_sign (reverse word.now) }
{
    word.iter().rev().position(|b| *b == b'=')
}

// How many bytes stand after the last `=`, or how many there are if there is none.
fn bits_of(word: &[u8]) -> usize
    ensures { result ≡ length (bits_in word.now) }
{
    bytes_after(word).unwrap_or(word.len())
}

// The number of cycles that stream words give by themselves.
fn cycles_in(words: &[String]) -> usize
    ensures { result ≡ cycles_in (map string_bytes words.now) }
{
    match words {
        [] => 0,
        [word, ..] => bits_of(word.as_bytes()),
    }
}

/// Makes the lines of a part of the plane that the text's pattern has come to. The words are the
/// streams of the inputs, and there are as many cycles as the first word has bits.
pub fn window(alloc: Global, view: View, words: &[String], text: &[u8]) -> Result<Output, TextError>
    ensures printed { IfOk result (λ output.
        Prints (window view (map string_bytes words.now)) text.now (output_text output)) }
    ensures writable { IfOk result IsWritableOutput }
    ensures refused { IfErr result (λ e. HasTextCause
        (window view (map string_bytes words.now)) text.now e) }
{
    let driven = driven_by(alloc, cycles_in(words), words, text)?;
    let Driven {
        pattern,
        ports,
        streams,
    } = driven;
    let made = probe_view::window(
        alloc,
        pattern,
        &ports,
        &streams,
        view.generation,
        view.x,
        view.y,
        view.width,
        view.height,
    );
    drop(streams);
    drop(ports);
    let lines = made?;
    Ok(Output::Lines(lines))
}
