//! Fills the tables of a routed circuit from its drawing. What stands in them is tested elsewhere.
#![tactic(auto)]

mod feeding;
mod gates;
mod listing;
mod lists_of;
mod solving;
mod tables;

pub use tables::{list_in, tables_of};
