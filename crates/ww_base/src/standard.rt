// Standard input, output and error as a source and sinks. No contract can say which bytes a stream
// of the system gives or keeps, so over such a stream `left` and `written` tell no bytes. Over a
// stream whose bytes are known they are those bytes.
ghost use Rattle.std.specs.Prelude.{◌≡◌};
ghost use Rattle.ww_base.specs.Standard.{source_stream, source_faults, sink_stream, sink_faults};

use crate::{Failed, Sink, Source};
use std::io::{Read, Write};

/// A source that reads from a stream, such as standard input.
#[derive(Drop)]
pub struct StdSource<R: Read + Drop> {
    stream: R,
    faults: u64,
}

impl<R: Read + Drop> StdSource<R> {
    /// Makes a source over the stream, with no failure so far.
    pub fn new(stream: R) -> Self
        ensures stream { source_stream result ≡ stream }
        ensures faults { source_faults result ≡ 0 }
    {
        StdSource { stream, faults: 0 }
    }

    /// Returns how often the source has failed. The count stays at the greatest u64.
    pub fn faults(&self) -> u64
        ensures { result ≡ source_faults self.now }
    {
        self.faults
    }
}

impl<R: Read + Drop> Source for StdSource<R> {
    ghost left = { λ s. R.remaining (source_stream s) };

    ghost faults = { λ s. source_faults s };

    fn read(&mut self, buf: &mut [u8]) -> Result<usize, Failed> {
        match self.stream.read(buf) {
            Ok(count) => Ok(count),
            Err(_) => {
                self.faults = self.faults.saturating_add(1);
                Err(Failed)
            }
        }
    }
}

/// A sink that writes to a stream, such as standard output or error.
#[derive(Drop)]
pub struct StdSink<W: Write + Drop> {
    stream: W,
    faults: u64,
}

impl<W: Write + Drop> StdSink<W> {
    /// Makes a sink over the stream, with no failure so far.
    pub fn new(stream: W) -> Self
        ensures stream { sink_stream result ≡ stream }
        ensures faults { sink_faults result ≡ 0 }
    {
        StdSink { stream, faults: 0 }
    }

    /// Returns how often the sink has failed. The count stays at the greatest u64.
    pub fn faults(&self) -> u64
        ensures { result ≡ sink_faults self.now }
    {
        self.faults
    }
}

impl<W: Write + Drop> Sink for StdSink<W> {
    ghost written = { λ s. W.contents (sink_stream s) };

    ghost faults = { λ s. sink_faults s };

    fn write(&mut self, piece: &[u8]) -> Result<usize, Failed> {
        match self.stream.write(piece) {
            Ok(count) if count > 0 || piece.is_empty() => Ok(count),
            _ => {
                self.faults = self.faults.saturating_add(1);
                Err(Failed)
            }
        }
    }
}
