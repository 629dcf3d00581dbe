// Sources and sinks, seen by their bytes if they tell them, and by how often they have failed.
ghost use Rattle.std.specs.Prelude.{◌<◌, List, ℕ, length, IfOk};
ghost use Rattle.std.specs.declared.option.Option.{Option};
ghost use Rattle.std.specs.Io.{ReadsAtMost, WritesAtMost};
ghost use Rattle.std.specs.Io.KnownBytes.{ReadConsumes, WriteAppends};
ghost use Rattle.ww_base.specs.Faults.{HasCause};

/// The error of a read or a write that failed.
#[derive(Clone, Copy, Debug, PartialEq, Eq)]
pub struct Failed;

/// A source, from which bytes are read.
pub trait Source {
    /// The bytes still to come, if the source tells them.
    ghost left: { Self → Option (List ℕ) };

    /// How often the source has failed: a u64 that never falls and stays at the greatest.
    ghost faults: { Self → ℕ };

    /// Reads some bytes into the buffer, from its start on, and returns how many. It reads none
    /// only at the end or if the buffer is empty. A failed call reads none.
    fn read(&mut self, buf: &mut [u8]) -> Result<usize, Failed>
        ensures bound { ReadsAtMost result buf.new }
        ensures bytes { ReadConsumes (left self.old) (left self.new) result buf.new }
        ensures cause { HasCause (faults self.old) (faults self.new) result };
}

/// A sink, to which bytes are written.
pub trait Sink {
    /// The bytes taken so far, if the sink tells them.
    ghost written: { Self → Option (List ℕ) };

    /// How often the sink has failed: a u64 that never falls and stays at the greatest.
    ghost faults: { Self → ℕ };

    /// Takes a prefix of the piece, at least one byte unless the piece is empty, and returns how
    /// many bytes it took. A failed call takes none.
    fn write(&mut self, piece: &[u8]) -> Result<usize, Failed>
        ensures bound { WritesAtMost result piece.now }
        ensures some { IfOk result (λ n. 0 < length piece.now → 0 < n) }
        ensures bytes { WriteAppends (written self.old) (written self.new) result piece.now }
        ensures cause { HasCause (faults self.old) (faults self.new) result };
}
