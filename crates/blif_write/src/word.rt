// The words of a line.
use cell_core::Src;

/// A word of a line: bytes as they are, the name of a source's net, or the name of a loop's latch
/// or of a gate, by its number.
#[derive(Clone, Copy)]
pub enum LineWord<'a> {
    Bytes(&'a [u8]),
    Net(Src),
    Loop(usize),
    Gate(usize),
}
