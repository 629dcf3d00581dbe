// Lists of cells that are written down, and what is asked of each.
ghost use Rattle.cell_plans.specs.PlanOf.{IsPlannable};

use crate::pages::Page;
use crate::rewriting::{count_of, push_list};
use crate::sizes::tiles_of_list;
use crate::written::{Written, list_of};
use cell_core::{CellList, Src};
use cell_polarity::complemented;
use cell_rewriting::rewritten;

/// What is asked of a list: how many tiles its plan takes at most; or, with sources that are kept, the text of what it
/// becomes if what is 1 at zero is kept as its complement, or the text of exactly eight of the lists to which it is
/// rewritten, the first one among them.
#[derive(Clone, Copy)]
pub enum Asked<'a> {
    Tiles(u64),
    Complemented(&'a [Src], &'a str),
    Rewritten(&'a [Src], &'a str),
}

fn expect_tiles(page: &mut Page, list: &CellList, most: u64)
    requires { IsPlannable list.now }
{
    let is_small = match tiles_of_list(page.alloc(), list) {
        Some(tiles) => tiles <= most,
        None => false,
    };
    page.expect_holds(is_small);
}

fn expect_complemented(page: &mut Page, list: &CellList, kept: &[Src], want: &str) {
    match complemented(page.alloc(), list, kept) {
        Ok(low) => {
            push_list(page, &low.list);
            drop(low);
        }
        Err(_) => page.cut(),
    }
    page.expect(want.as_bytes());
}

fn expect_rewritten(page: &mut Page, list: &CellList, kept: &[Src], want: &str) {
    match rewritten(page.alloc(), list, kept) {
        Ok(lists) => {
            let count = count_of(page, &lists, want);
            drop(lists);
            page.push(want.as_bytes());
            page.expect_holds(count == 8);
        }
        Err(_) => page.cut(),
    }
}

fn expect_asked(page: &mut Page, list: &CellList, asked: Asked<'_>)
    requires { IsPlannable list.now }
{
    match asked {
        Asked::Tiles(most) => expect_tiles(page, list, most),
        Asked::Complemented(kept, want) => expect_complemented(page, list, kept, want),
        Asked::Rewritten(kept, want) => expect_rewritten(page, list, kept, want),
    }
}

/// Makes the list that is written down, and notes it unless it is as it is asked.
pub fn expect_list(page: &mut Page, written: &Written<'_>, asked: Asked<'_>) {
    match list_of(page.alloc(), written) {
        Some(list) => {
            expect_asked(page, &list, asked);
            drop(list);
        }
        None => page.cut(),
    }
}
