// All tables of cases, of which one page notes what is wrong.
use crate::choosing::expect_choices;
use crate::complements::expect_complements;
use crate::covers::expect_counts;
use crate::logical_lines::expect_lines;
use crate::pages::Page;
use crate::plans::expect_runs;
use crate::rewriting::expect_rewritten;
use crate::sizes::expect_sizes;
use crate::stages::{TOGGLE, expect_stages};
use std::test::Fail;

#[test]
fn texts_are_cut_lists_are_made_and_planned_and_stages_are_those_of_the_tour(
    rt: HostRuntime,
) -> Result<(), Fail> {
    let mut page = Page::new(rt.alloc());
    expect_lines(&mut page);
    expect_counts(&mut page);
    expect_complements(&mut page);
    expect_rewritten(&mut page);
    expect_sizes(&mut page);
    expect_choices(&mut page);
    expect_runs(&mut page);
    expect_stages(&mut page, TOGGLE);
    page.end()
}
