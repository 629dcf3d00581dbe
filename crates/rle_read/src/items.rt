// The items of extended RLE: a run of cells, the end of rows, or the end of the pattern.
ghost use Rattle.std.specs.Prelude.{◌≡◌, ◌∷◌, ◌<◌, length};
ghost use Rattle.pattern_reading.specs.Items.{IsCounted, pieces_of, counted_item, item_without_count, item_in};
ghost use Rattle.rle_read.specs.Texts.{tagged_digits_of, item_of};

use crate::words::digits_at_front;
use pattern_lines::{is_blank, number_in};
use ww_rule::State;

/// A byte that is no digit, with the digits directly before it. If a line ends with digits, they
/// are a piece without such a byte.
#[derive(Clone, Copy)]
pub struct TaggedDigits<'a> {
    pub digits: &'a [u8],
    pub tag: Option<u8>,
}

/// The meaning of a piece of a line.
#[derive(Clone, Copy)]
pub enum Item {
    /// A number of cells of one state.
    Cells(u64, State),
    /// A number of ends of rows.
    RowEnds(u64),
    /// The end of the pattern, `!`.
    End,
    /// A blank between items.
    Blank,
    /// Digits that the end of the text cuts off.
    CutOff,
    /// Anything else.
    NoItem,
}

/// Returns the first piece of bytes, and the bytes after it.
pub fn split_piece(bytes: &[u8]) -> (TaggedDigits<'_>, &[u8])
    requires { 0 < length bytes.now }
    ensures pieces { pieces_of bytes.now ≡ tagged_digits_of result.0 ∷ pieces_of result.1.now }
    ensures shorter { length result.1.now < length bytes.now }
{
    let (digits, after) = bytes.split_at(digits_at_front(bytes));
    match after {
        [] => (TaggedDigits { digits, tag: None }, after),
        [tag, rest @ ..] => (
            TaggedDigits {
                digits,
                tag: Some(*tag),
            },
            rest,
        ),
    }
}

// What a tag with a count stands for.
fn counted_item(count: u64, tag: u8) -> Item
    requires { 0 < count }
    ensures item { item_of result ≡ counted_item count tag }
    ensures counted { IsCounted (item_of result) }
{
    match tag {
        b'.' | b'b' => Item::Cells(count, State::Empty),
        b'A' | b'o' => Item::Cells(count, State::Head),
        b'B' => Item::Cells(count, State::Tail),
        b'C' => Item::Cells(count, State::Conductor),
        b'$' => Item::RowEnds(count),
        _ => Item::NoItem,
    }
}

// What a byte without a count stands for.
fn item_without_count(tag: u8) -> Item
    ensures item { item_of result ≡ item_without_count tag }
    ensures counted { IsCounted (item_of result) }
{
    if tag == b'!' {
        return Item::End;
    }
    if is_blank(tag) {
        return Item::Blank;
    }
    counted_item(1, tag)
}

/// Returns what a piece stands for. `is_ended` says whether its line has an end.
pub fn item_in(is_ended: bool, piece: TaggedDigits<'_>) -> Item
    ensures item { item_of result ≡ item_in is_ended piece.entry.digits.now piece.entry.tag }
    ensures counted { IsCounted (item_of result) }
{
    let Some(tag) = piece.tag else {
        return if is_ended { Item::NoItem } else { Item::CutOff };
    };
    if piece.digits.is_empty() {
        return item_without_count(tag);
    }
    match number_in(piece.digits) {
        None | Some(0) => Item::NoItem,
        Some(count) => counted_item(count, tag),
    }
}
