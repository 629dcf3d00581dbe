// The tags of cells.
ghost use Rattle.std.specs.Prelude.{◌≡◌, ◌≢◌};
ghost use Rattle.pattern_writing.specs.Writer.{tag_of, row_end};

use ww_rule::State;

/// Returns the tag of a cell: the character of its state in extended RLE.
pub fn tag_of(state: State) -> u8
    ensures tag { result ≡ tag_of state }
    ensures cell { result ≢ row_end }
{
    match state {
        State::Empty => b'.',
        State::Head => b'A',
        State::Tail => b'B',
        State::Conductor => b'C',
    }
}
