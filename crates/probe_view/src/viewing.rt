// A part of a pattern's plane, as text.
ghost use Rattle.std.specs.Prelude.{◌≡◌, ◌+◌, ◌++◌, IfOk, IfErr, OnOk, None};
ghost use Rattle.ww_rule.specs.Grid.{AreInBox, plane_of};
ghost use Rattle.pattern_reading.specs.Ports.{cells_of};
ghost use Rattle.drive.specs.Driving.{AreFor, driven_by, first_miss};
ghost use Rattle.drive.specs.Runs.{IsBandRun, planes_of};
ghost use Rattle.probe_view.specs.Windows.{HasWindowCause, window_tags, window_text};

use crate::error::WindowError;
use drive::{Run, Streams};
use lists::Bytes;
use pattern_reading::Ports;
use pattern_writing::tag_of;
use std::alloc::{AllocError, Global};
use ww_rule::{Injection, Pattern};

// Adds the tags of `width` cells of a row to a text.
fn push_tags(text: &mut Vec<u8>, run: &Run, row: u128, x: u64, width: u64) -> Result<(), AllocError>
    requires { IsBandRun run.now }
    ensures { OnOk result (text.new.items ≡
        text.old.items ++ window_tags (planes_of run.now run.now.generation) row x width) }
{
    for i in 0..width {
        let state = run.state(x as u128 + i as u128, row);
        text.push(tag_of(state))?;
    }
    Ok(())
}

// The lines of `height` rows.
fn lines_of(
    alloc: Global,
    run: &Run,
    x: u64,
    y: u64,
    width: u64,
    height: u64,
) -> Result<Vec<u8>, AllocError>
    requires { IsBandRun run.now }
    ensures { IfOk result (λ text. text.items ≡
        window_text (planes_of run.now run.now.generation) x y width height) }
{
    let mut text = Vec::new(alloc);
    for i in 0..height {
        push_tags(&mut text, run, y as u128 + i as u128, x, width)?;
        text.push(b'\n')?;
    }
    Ok(text)
}

/// Returns a part of the plane that a pattern has come to at a generation while streams drive it:
/// `height` lines of `width` tags, `.`, `A`, `B` or `C`, each line ended by byte 10. The first tag
/// is that of column x and row y, counted from the pattern's upper left cell; all cells beyond the
/// pattern's box are empty. A call needs one stream, of any number of cycles, for each input of
/// each context, and inputs inside the pattern's box. `NotQuiet` names the first injection up to
/// the generation whose cell is no conductor before the injections of its generation.
pub fn window(
    alloc: Global,
    pattern: Pattern,
    ports: &Ports,
    streams: &Streams,
    generation: u64,
    x: u64,
    y: u64,
    width: u64,
    height: u64,
) -> Result<Bytes, WindowError>
    requires streams { AreFor ports.now streams.now }
    requires in_box { AreInBox pattern.width pattern.height (cells_of ports.now.ins) }
    ensures text { IfOk result (λ text. text ≡
        window_text (driven_by ports.now streams.now
        (plane_of pattern.rows) generation) x y width height) }
    ensures quiet { OnOk result (first_miss ports.now streams.now
        (plane_of pattern.rows) generation ≡ None) }
    ensures refused { IfErr result (HasWindowCause ports.now streams.now
        (plane_of pattern.rows) generation) }
{
    let mut run = Run::of_streams(alloc, pattern, ports, streams)?;
    run.go_on(generation);
    if let Some(Injection { generation, x, y }) = run.missed() {
        return Err(WindowError::NotQuiet {
            generation: generation as u64,
            x,
            y,
        });
    }
    let text = lines_of(alloc, &run, x, y, width, height)?;
    Ok(Bytes::of(text))
}
