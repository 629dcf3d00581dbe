// The bytes of a step, which fit on a line.
ghost use Rattle.std.specs.Prelude.{◌≡◌, ◌≤◌, ◌+◌, [], ◌++◌, length, IsTrue};

use crate::items::LINE;

/// Bytes that fit on a line. A piece that has no room there is refused.
#[derive(Clone, Copy)]
pub struct StepBytes {
    bytes: [u8; LINE],
    used: usize,
    ghost room: { used ≤ 70 },
}

impl StepBytes {
    ghost use Rattle.rle_write.specs.StepBytes.{bytes_in};

    /// No bytes.
    pub fn new() -> StepBytes
        ensures { bytes_in result ≡ [] }
    {
        StepBytes {
            bytes: [0; LINE],
            used: 0,
        }
    }

    /// The bytes.
    pub fn bytes(&self) -> &[u8]
        ensures { result.now ≡ bytes_in self.now }
    {
        &self.bytes[..self.used]
    }

    // Takes a piece for which there is room.
    fn push(&mut self, piece: &[u8])
        requires { length (bytes_in self.old) + length piece.now ≤ 70 }
        ensures { bytes_in self.new ≡ bytes_in self.old ++ piece.now }
    {
        let end = self.used + piece.len();
        self.bytes[self.used..end].copy_from_slice(piece);
        self.used = end;
    }

    /// Takes a piece if there is room for it, and returns whether it did.
    pub fn put(&mut self, piece: &[u8]) -> bool
        ensures { IsTrue result → bytes_in self.new ≡ bytes_in self.old ++ piece.now }
    {
        if piece.len() > LINE - self.used {
            return false;
        }
        self.push(piece);
        true
    }
}
