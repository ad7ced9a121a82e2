//! The order of a definition's steps by their needs: which step precedes which, the lengths of the chains of needs, and
//! the neighbors of each step.
//!
//! [`Order::of`] computes an [`Order`] from a definition once. Its other methods take no memory.
#![tactic(auto)]

mod laws;
mod orders;
mod ranks;
mod step_sets;
mod topological;
mod transitive;

pub use laws::order_laws;
pub use orders::Order;
