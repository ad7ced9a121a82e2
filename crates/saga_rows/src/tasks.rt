//! Tasks of one saga.

/// A task that may start in a saga, with the step's number.
#[derive(Clone, Copy, Debug, PartialEq, Eq)]
pub enum RowTask {
    /// A step's action.
    Run(u16),
    /// A step's compensation.
    Undo(u16),
    /// A plan.
    Plan,
}
