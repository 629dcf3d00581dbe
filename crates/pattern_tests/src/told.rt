// All tables of cases, of which one page notes what is wrong. Some stand in texts: there a line that begins with `>`
// parts two cases, and `== ` stands before what is wanted.
use crate::bands::{ORDERS, push_moved};
use crate::cases::CASES;
use crate::found::push_pattern;
use crate::gates::expect_gates;
use crate::lanes::expect_lanes;
use crate::lines::expect_lines;
use crate::pages::Page;
use crate::patterns::{TEXTS, push_error};
use crate::rule::{VIEWS, push_view};
use crate::rules::expect_rules;
use crate::texts::{Case, cut};
use crate::tiles::expect_tiles;
use crate::worked::expect_worked;
use rle_read::read;
use std::test::Fail;
use ww_rule::Pattern;

// What cases are about: the rows of patterns, the planes that follow them, bands that are moved, and the gates and
// wires that are found.
#[derive(Clone, Copy)]
enum About {
    Rows,
    Planes,
    Bands,
    Gates,
}

const LISTS: &[(About, &str)] = &[
    (About::Rows, TEXTS),
    (About::Planes, VIEWS),
    (About::Bands, ORDERS),
    (About::Gates, CASES),
];

// Appends what is told of a case's pattern.
fn push_read(page: &mut Page, about: About, case: Case, pattern: Pattern) {
    match about {
        About::Bands => {
            push_moved(page, case.head, pattern);
            return;
        }
        About::Planes => push_view(page, case.head, &pattern),
        About::Gates => push_pattern(page, case.text, case.want, &pattern),
        About::Rows => page.push_rows(&pattern.rows),
    }
    drop(pattern);
}

// Appends what is told of a case.
fn push_case(page: &mut Page, about: About, case: Case) {
    match read(page.alloc(), case.text.as_bytes()) {
        Ok(pattern) => push_read(page, about, case, pattern),
        Err(error) => push_error(page, error),
    }
}

// Notes each of the cases of which something else is told than what is wanted.
fn expect_cases(page: &mut Page, about: About, cases: &str) {
    for case in cases.split("\n>") {
        let case = cut(case);
        push_case(page, about, case);
        page.expect(case.want.as_bytes());
    }
}

fn expect_lists(page: &mut Page) {
    for (about, cases) in LISTS {
        expect_cases(page, *about, cases);
    }
}

#[test]
fn texts_lanes_plans_tiles_gates_and_bands_are_as_they_are_told(
    rt: HostRuntime,
) -> Result<(), Fail> {
    let mut page = Page::new(rt.alloc());
    expect_lists(&mut page);
    expect_lines(&mut page);
    expect_lanes(&mut page);
    expect_rules(&mut page);
    expect_worked(&mut page);
    expect_tiles(&mut page);
    expect_gates(&mut page);
    page.end()
}
