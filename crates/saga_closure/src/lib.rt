//! A maximum flow through the network of a case. It uses the adjacency lists of the definition and does not build the
//! network.
//!
//! Paths are found in phases (E. A. Dinic, 1970): a search from the source computes layers, and then walks back from
//! the steps of the last layer decrease the level by one at each step. A layer is the union of bit rows: for each step
//! of the layer before, the steps to which residual arcs over needs lead.
#![tactic(auto)]

mod bits;
mod capacities;
mod chains;
mod flows;
mod links;
mod nets;
mod pairs;
mod paths;
mod phases;
mod pushes;
mod rooms;
mod rows;
mod searching;
mod solutions;
mod solving;
mod walking;

pub use flows::ClosureFlow;
pub use solutions::Solution;
pub use solving::solve;
