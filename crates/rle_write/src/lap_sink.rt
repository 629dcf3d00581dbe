// The sink that holds the bytes of a lap.
ghost use Rattle.std.specs.Prelude.{◌≡◌, ◌≤◌, ◌+◌, [], Some, ◌++◌, length};

use ww_base::{Failed, Sink};

// The most bytes of a lap.
const LAP: usize = 4096;

/// The bytes of a lap. A piece that has no room there is refused.
#[derive(Drop)]
pub struct Lap {
    bytes: [u8; LAP],
    used: usize,
    faults: u64,
    ghost room: { used ≤ 4096 },
}

impl Lap {
    ghost use Rattle.rle_write.specs.LapBytes.{bytes_of};

    /// A lap of no bytes.
    pub fn new() -> Lap
        ensures { bytes_of result ≡ [] }
    {
        Lap {
            bytes: [0; LAP],
            used: 0,
            faults: 0,
        }
    }

    /// The bytes of the lap.
    pub fn bytes(&self) -> &[u8]
        ensures { result.now ≡ bytes_of self.now }
    {
        &self.bytes[..self.used]
    }

    // Takes a piece for which there is room.
    fn push(&mut self, piece: &[u8])
        requires { length (bytes_of self.old) + length piece.now ≤ 4096 }
        ensures bytes { bytes_of self.new ≡ bytes_of self.old ++ piece.now }
        ensures faults { self.new.faults ≡ self.old.faults }
    {
        let end = self.used + piece.len();
        self.bytes[self.used..end].copy_from_slice(piece);
        self.used = end;
    }
}

impl Sink for Lap {
    ghost use Rattle.rle_write.specs.LapBytes.{bytes_of};

    ghost written = { λ lap. Some (bytes_of lap) };

    ghost faults = { λ lap. lap.faults };

    fn write(&mut self, piece: &[u8]) -> Result<usize, Failed> {
        if piece.len() > LAP - self.used {
            self.faults = self.faults.saturating_add(1);
            return Err(Failed);
        }
        self.push(piece);
        Ok(piece.len())
    }
}
