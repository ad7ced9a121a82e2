//! Answers to a case.
use crate::amounts::Amounts;
use crate::lists::{Chain, Marks};

/// An answer to a case: a plan, or a chain that shows that no set of steps is allowed.
#[derive(Debug, Drop)]
pub enum Answer {
    /// The steps to keep, with a flow that shows that no allowed set costs less.
    Plan(Plan),
    /// Steps each of which needs the next directly: the first cannot be dropped, and the last cannot be kept.
    Blocked(Chain),
}

/// A plan: the set of steps to keep at the end, its cost, and as its certificate a flow of that value.
///
/// The flow is one in Picard's network of the case. The network has an arc from the source to each step, whose capacity
/// is the cost to drop the step; an arc from each step to the sink, whose capacity is the cost to keep the step; and
/// for each need an unbounded arc from the step to the step that it needs. `leave` and `stand` have one amount for each
/// step, `links` has one for each need in the definition's order.
#[derive(Debug, Drop)]
pub struct Plan {
    pub kept: Marks,
    pub cost: u64,
    pub leave: Amounts,
    pub stand: Amounts,
    pub links: Amounts,
}
