//! Tests of the public calls that cut texts of BLIF into lines, map covers to cells, rewrite lists of cells, and make
//! plans of them. Also compares the stages of docs/TOUR.md with what the crates make. `tool_tests` tries what a command
//! shows of a call, as what is lifted from plans.
#![tactic(auto)]

#[cfg(test)]
mod choosing;
#[cfg(test)]
mod climbing;
#[cfg(test)]
mod complements;
#[cfg(test)]
mod covers;
#[cfg(test)]
mod drawing;
#[cfg(test)]
mod listed;
#[cfg(test)]
mod logical_lines;
#[cfg(test)]
mod pages;
#[cfg(test)]
mod plans;
#[cfg(test)]
mod rewriting;
#[cfg(test)]
mod sizes;
#[cfg(test)]
mod stages;
#[cfg(test)]
mod told;
#[cfg(test)]
mod tour;
#[cfg(test)]
mod written;
