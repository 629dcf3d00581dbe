//! Draws a flat netlist as a routed circuit, small gates with free wires between them, if a search finds a drawing that
//! passes the checks.
//!
//! Theorem: `route_netlist` (`routed`, `nets`, `lines`); definitions `IsRoutedFor`, `CarriesDesignsOf`, `ShowsNetsBy`.
#![tactic(auto)]

mod best;
mod copies;
mod lines;
mod net_lines;
mod nets;
mod routes;
mod search;
mod seen;
mod tables;
mod wanted;
mod whole;

// The answer of `route_netlist` when memory runs out.
pub use lists::OutOfMemory as RoutedPlanError;
pub use nets::ShownNets;
pub use routes::{Routed, route_netlist};
