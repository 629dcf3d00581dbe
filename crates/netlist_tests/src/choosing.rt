// Which of several lists is chosen for its plan, and how large the plan is.
ghost use Rattle.std.specs.Prelude.{◌≡◌, ◌⊎◌, ◌++◌, ◌∷◌, [], All, IfSome};
ghost use Rattle.cell_plans.specs.PlanOf.{IsPlannable};

use crate::pages::Page;
use crate::written::{Written, list_of};
use cell_core::{Cell, CellList, Src};
use cell_plans::best_plan;
use std::alloc::Global;

// An XOR of two inputs in one cell.
const ONE_CELL: Written<'static> = Written {
    inputs: 2,
    cells: &[Cell::Xor(Src::Input(0), Src::Input(1))],
    outs: &[Src::Cell(0)],
    latches: &[],
    starts: &[],
    nets: &[Src::Input(0), Src::Input(1), Src::Cell(0)],
};

// An XOR of two inputs in three cells.
const THREE_CELLS: Written<'static> = Written {
    inputs: 2,
    cells: &[
        Cell::AndNot(Src::Input(0), Src::Input(1)),
        Cell::AndNot(Src::Input(1), Src::Input(0)),
        Cell::Or(Src::Cell(0), Src::Cell(1)),
    ],
    outs: &[Src::Cell(2)],
    latches: &[],
    starts: &[],
    nets: &[Src::Input(0), Src::Input(1), Src::Cell(2)],
};

// An XOR of two inputs in four cells.
const FOUR_CELLS: Written<'static> = Written {
    inputs: 2,
    cells: &[
        Cell::AndNot(Src::Input(0), Src::Input(1)),
        Cell::AndNot(Src::Input(0), Src::Cell(0)),
        Cell::Or(Src::Input(0), Src::Input(1)),
        Cell::AndNot(Src::Cell(2), Src::Cell(1)),
    ],
    outs: &[Src::Cell(3)],
    latches: &[],
    starts: &[],
    nets: &[Src::Input(0), Src::Input(1), Src::Cell(3)],
};

// Lists, each given by its number of cells, and that of the list whose plan is kept: the smallest.
const CHOICES: &[(&str, u8)] = &[
    ("1", b'1'),
    ("3", b'3'),
    ("4", b'4'),
    ("13", b'1'),
    ("31", b'1'),
    ("34", b'3'),
    ("43", b'3'),
    ("314", b'1'),
    ("431", b'1'),
    ("143", b'1'),
];

// The list of one, three or four cells.
fn list_by(alloc: Global, cells: u8) -> Option<CellList>
    ensures { IfSome result IsPlannable }
{
    let written = match cells {
        b'1' => &ONE_CELL,
        b'3' => &THREE_CELLS,
        _ => &FOUR_CELLS,
    };
    list_of(alloc, written)
}

// Puts an item after the others, if memory is enough. The item's type is open here, so that what is dropped if memory
// is refused costs no proof time.
fn put<T: Drop>(items: &mut Vec<T>, item: T) -> bool
    ensures { (items.new.items ≡ items.old.items) ⊎ (items.new.items ≡ items.old.items ++ item ∷ []) }
{
    items.push(item).is_ok()
}

// Appends a list, if memory is enough.
fn push_list(alloc: Global, lists: &mut Vec<CellList>, cells: u8) -> bool
    requires { All IsPlannable lists.old.items }
    ensures { All IsPlannable lists.new.items }
{
    match list_by(alloc, cells) {
        Some(list) => put(lists, list),
        None => false,
    }
}

fn push_lists(alloc: Global, lists: &mut Vec<CellList>, numbers: &[u8]) -> bool
    requires { All IsPlannable lists.old.items }
    ensures { All IsPlannable lists.new.items }
{
    let mut are_there = true;
    for cells in numbers {
        are_there &= push_list(alloc, lists, *cells);
    }
    are_there
}

// The place of the chosen list, and how many lanes and columns its plan has.
#[derive(Clone, Copy)]
struct Choice {
    list: usize,
    lanes: u32,
    columns: usize,
}

// The choice that `best_plan` makes.
fn choice_of(alloc: Global, lists: &[CellList]) -> Option<Choice>
    requires { All IsPlannable lists.now }
{
    if lists.is_empty() {
        return None;
    }
    match best_plan(alloc, lists) {
        Ok(chosen) => {
            let choice = Choice {
                list: chosen.list,
                lanes: chosen.plan.lanes,
                columns: chosen.plan.columns.len(),
            };
            drop(chosen);
            Some(choice)
        }
        Err(_) => None,
    }
}

fn choice_by(alloc: Global, numbers: &[u8]) -> Option<Choice> {
    let mut lists = Vec::new(alloc);
    let are_there = push_lists(alloc, &mut lists, numbers);
    let choice = choice_of(alloc, &lists);
    drop(lists);
    if are_there { choice } else { None }
}

// Appends the choice, and returns whether it is that of the list with `kept` cells, with its lanes and columns.
fn is_kept(page: &mut Page, choice: Choice, numbers: &[u8], kept: u8) -> bool {
    page.push(b": list ");
    page.push_number(choice.list as u64);
    page.push(b", lanes ");
    page.push_number(u64::from(choice.lanes));
    page.push(b", columns ");
    page.push_number(choice.columns as u64);
    let (lanes, columns) = match kept {
        b'1' => (2, 1),
        b'3' => (4, 6),
        _ => (4, 7),
    };
    choice.list < numbers.len()
        && numbers[choice.list] == kept
        && choice.lanes == lanes
        && choice.columns == columns
}

/// Notes it unless the list with the smallest plan is kept.
pub fn expect_choices(page: &mut Page) {
    for (numbers, kept) in CHOICES {
        page.push(numbers.as_bytes());
        let is_kept = match choice_by(page.alloc(), numbers.as_bytes()) {
            Some(choice) => is_kept(page, choice, numbers.as_bytes(), *kept),
            None => false,
        };
        page.expect_holds(is_kept);
    }
}
