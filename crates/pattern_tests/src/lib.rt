//! Tests of the public calls that lay out and draw plans, that read, step and run patterns, of the library of gates, of
//! the lines that describe routed circuits, and of the search that finds gates and wires. `tool_tests` tries what a
//! command shows of a call, as routed circuits, and `dev/gate/routed` broken ones with the program.
#![tactic(auto)]

#[cfg(test)]
mod bands;
#[cfg(test)]
mod cases;
#[cfg(test)]
mod facts;
#[cfg(test)]
mod found;
#[cfg(test)]
mod gates;
#[cfg(test)]
mod lanes;
#[cfg(test)]
mod lines;
#[cfg(test)]
mod macro_steps;
#[cfg(test)]
mod pages;
#[cfg(test)]
mod patterns;
#[cfg(test)]
mod plans;
#[cfg(test)]
mod rule;
#[cfg(test)]
mod rules;
#[cfg(test)]
mod samples;
#[cfg(test)]
mod slots;
#[cfg(test)]
mod tapes;
#[cfg(test)]
mod texts;
#[cfg(test)]
mod tiles;
#[cfg(test)]
mod told;
#[cfg(test)]
mod worked;
