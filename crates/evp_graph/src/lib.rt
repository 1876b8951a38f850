//! The graph of stones that targets link, and its routes.
#![tactic(auto)]

mod fault;
mod graph;
mod listing;
mod numbers;
mod places;
mod route;
mod search;
mod turn;

pub use fault::{GraphFault, RouteFault};
pub use graph::Graph;
pub use listing::{routes, routes_are_listed};
pub use numbers::Numbers;
pub use route::{Route, Routes};
