//! Responses, for a book with a shelf that may grow.
use crate::replies::Reply;
use saga_def::Text;

/// The result of a line of input if the shelf may grow.
#[derive(Debug, Drop)]
pub enum Response {
    /// The reply to the line.
    Reply(Reply),
    /// The line is a request to add the definition in this text to the shelf. The book is unchanged.
    Define(Text),
}
