//! A maximum flow through a network, and the nodes that the source reaches in its residual network.
//!
//! A network has a source, which is node 0, a sink, which is node 1, and arcs that carry whole units up to a capacity,
//! or without a bound. Call `unbounded_path` first. If no path of unbounded arcs leads from source to sink, `largest`
//! returns a maximum flow. `reach` returns the nodes that the source still reaches, which are the source's side of a
//! minimum cut.
#![tactic(auto)]

mod adjacency;
mod chains;
mod flows;
mod gates;
mod graphs;
mod laws;
mod marks;
mod nets;
mod phases;
mod pushes;
mod reaching;
mod residual_arcs;
mod rounds;
mod searching;

pub use flows::{Flow, largest, largest_counted};
pub use laws::value_laws;
pub use nets::{Arc, Cap, Net};
pub use pushes::push;
pub use reaching::{reach, unbounded_path};
pub use residual_arcs::ResidualArc;
pub use rounds::Progress;
