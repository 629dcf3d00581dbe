// Tables of the bits of an output.

use crate::gate::Answer;
use crate::testing::answer_of;
use gate_laws::CHOICES;

/// Returns the table of an answer: its bit for each number that the bits of three inputs make, the
/// first of them lowest.
pub fn table_of(answer: Answer) -> [bool; 8] {
    let mut table = [false; 8];
    for number in 0..8 {
        table[number] = answer_of(&CHOICES[number], answer);
    }
    table
}
