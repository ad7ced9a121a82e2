//! The solution of a case.
use crate::flows::ClosureFlow;

/// The result of [`solve`](crate::solve).
#[derive(Debug, Drop)]
pub enum Solution {
    /// Steps each of which needs the next directly: the first cannot be dropped, and the last cannot be kept.
    Blocked(Vec<u16>),
    /// A maximum flow.
    Flow(ClosureFlow),
}
