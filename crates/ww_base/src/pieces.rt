// A text in pieces, written at once.
ghost use Rattle.std.specs.Prelude.{ℕ, List, ◌++◌, take, OnOk, OnErr};
ghost use Rattle.std.specs.Io.KnownBytes.{Appends};
ghost use Rattle.ww_base.specs.Faults.{HasCause};
ghost use Rattle.ww_base.specs.Pages.{held};
ghost use Rattle.ww_base.specs.Pieces.{joined_pieces};
ghost use Rattle.ww_base.specs.Progress.{Wrote, Broke};

use crate::page::Page;
use crate::streams::{Failed, Sink};

/// Puts the pieces on a page, one after the other.
pub fn put_pieces<O: Sink>(sink: &mut O, page: &mut Page, pieces: &[&[u8]]) -> Result<(), Failed>
    ensures ok { OnOk result ((rest : List ℕ) →
        Wrote (O.written sink.old) (O.written sink.new) (O.faults sink.old) (O.faults sink.new)
        (held page.old ++ (joined_pieces pieces.now ++ rest)) (held page.new ++ rest)) }
    ensures err { OnErr result ((rest : List ℕ) →
        Broke (O.written sink.old) (O.written sink.new) (O.faults sink.old) (O.faults sink.new)
        (held page.old ++ (joined_pieces pieces.now ++ rest))) }
{
    for piece in pieces {
        page.put(sink, piece)?;
    }
    Ok(())
}

/// Writes the pieces one after the other, by one `write_all` if a page holds them all. If a write
/// fails, a prefix of them has been written. The call takes no memory.
pub fn write_pieces<O: Sink>(sink: &mut O, pieces: &[&[u8]]) -> Result<(), Failed>
    ensures ok { OnOk result (Appends (O.written sink.old) (O.written sink.new)
        (joined_pieces pieces.now)) }
    ensures front { OnErr result
        ((n : ℕ) × Appends (O.written sink.old) (O.written sink.new)
        (take n (joined_pieces pieces.now))) }
    ensures cause { HasCause (O.faults sink.old) (O.faults sink.new) result }
{
    let mut page = Page::new();
    put_pieces(sink, &mut page, pieces)?;
    page.flush(sink)
}
