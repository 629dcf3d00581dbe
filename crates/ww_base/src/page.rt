// A page that gathers pieces of bytes and sends them when it is full.
ghost use Rattle.std.specs.Prelude.{◌<◌, ◌≡◌, ◌≤◌, ◌+◌, ℕ, List, [], ◌++◌, length, OnOk, OnErr};
ghost use Rattle.ww_base.specs.Progress.{Wrote, Broke};

use crate::streams::{Failed, Sink};
use crate::whole::write_all;

// Writes a piece, or a prefix of it if a write fails.
fn send<O: Sink>(sink: &mut O, piece: &[u8]) -> Result<(), Failed>
    ensures ok { OnOk result ((rest : List ℕ) →
        Wrote (O.written sink.old) (O.written sink.new) (O.faults sink.old) (O.faults sink.new)
        (piece.now ++ rest) rest) }
    ensures err { OnErr result ((rest : List ℕ) →
        Broke (O.written sink.old) (O.written sink.new) (O.faults sink.old) (O.faults sink.new)
        (piece.now ++ rest)) }
{
    write_all(sink, piece)
}

/// The most bytes that a page holds.
const PAGE: usize = 16384;

/// Bytes that are still to be sent, and a count of the bytes of items on the last line, whether
/// they are sent or not.
#[derive(Drop)]
pub struct Page {
    bytes: [u8; PAGE],
    used: usize,
    column: usize,
    ghost room: { used ≤ 16384 },
    ghost short: { column ≤ 70 },
}

impl Page {
    ghost use Rattle.ww_base.specs.Pages.{held, column_of};

    /// Makes an empty page.
    pub fn new() -> Self
        ensures held { held result ≡ [] }
        ensures column { column_of result ≡ 0 }
    {
        Page {
            bytes: [0; PAGE],
            used: 0,
            column: 0,
        }
    }

    /// Returns how many bytes of items the last line has.
    pub fn column(&self) -> usize
        ensures count { result ≡ column_of self.now }
        ensures short { result ≤ 70 }
    {
        self.column
    }

    /// Counts an item of `size` bytes on the last line.
    pub fn advance(&mut self, size: usize)
        requires { column_of self.old + size ≤ 70 }
        ensures held { held self.new ≡ held self.old }
        ensures column { column_of self.new ≡ column_of self.old + size }
    {
        self.column += size;
    }

    /// Begins a line: the count of its bytes starts again at 0.
    pub fn begin_line(&mut self)
        ensures held { held self.new ≡ held self.old }
        ensures column { column_of self.new ≡ 0 }
    {
        self.column = 0;
    }

    // Puts a piece on the page.
    fn push(&mut self, piece: &[u8])
        requires { length (held self.old) + length piece.now ≤ 16384 }
        ensures held { held self.new ≡ held self.old ++ piece.now }
        ensures column { column_of self.new ≡ column_of self.old }
    {
        let end = self.used + piece.len();
        self.bytes[self.used..end].copy_from_slice(piece);
        self.used = end;
    }

    /// Sends what the page holds.
    pub fn flush<O: Sink>(&mut self, sink: &mut O) -> Result<(), Failed>
        ensures empty { OnOk result (held self.new ≡ []) }
        ensures column { column_of self.new ≡ column_of self.old }
        ensures ok { OnOk result ((rest : List ℕ) →
            Wrote (O.written sink.old) (O.written sink.new) (O.faults sink.old) (O.faults sink.new)
            (held self.old ++ rest) rest) }
        ensures err { OnErr result ((rest : List ℕ) →
            Broke (O.written sink.old) (O.written sink.new) (O.faults sink.old) (O.faults sink.new)
            (held self.old ++ rest)) }
    {
        send(sink, &self.bytes[..self.used])?;
        self.used = 0;
        Ok(())
    }

    // Sends what the page holds if a piece of `size` bytes has no room on it.
    fn make_room<O: Sink>(&mut self, sink: &mut O, size: usize) -> Result<(), Failed>
        ensures room { OnOk result (size ≤ 16384 → length (held self.new) + size ≤ 16384) }
        ensures empty { OnOk result (16384 < size → held self.new ≡ []) }
        ensures column { column_of self.new ≡ column_of self.old }
        ensures ok { OnOk result ((rest : List ℕ) →
            Wrote (O.written sink.old) (O.written sink.new) (O.faults sink.old) (O.faults sink.new)
            (held self.old ++ rest) (held self.new ++ rest)) }
        ensures err { OnErr result ((rest : List ℕ) →
            Broke (O.written sink.old) (O.written sink.new) (O.faults sink.old) (O.faults sink.new)
            (held self.old ++ rest)) }
    {
        if size <= PAGE - self.used {
            return Ok(());
        }
        self.flush(sink)
    }

    /// Puts a piece on the page. If there is no room for it, sends first what the page holds. A
    /// piece that is longer than a page is sent at once.
    pub fn put<O: Sink>(&mut self, sink: &mut O, piece: &[u8]) -> Result<(), Failed>
        ensures column { column_of self.new ≡ column_of self.old }
        ensures ok { OnOk result ((rest : List ℕ) →
            Wrote (O.written sink.old) (O.written sink.new) (O.faults sink.old) (O.faults sink.new)
            (held self.old ++ (piece.now ++ rest)) (held self.new ++ rest)) }
        ensures err { OnErr result ((rest : List ℕ) →
            Broke (O.written sink.old) (O.written sink.new) (O.faults sink.old) (O.faults sink.new)
            (held self.old ++ (piece.now ++ rest))) }
    {
        self.make_room(sink, piece.len())?;
        if piece.len() > PAGE {
            return send(sink, piece);
        }
        self.push(piece);
        Ok(())
    }
}
