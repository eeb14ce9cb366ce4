use crate::look::Look;
use issuer_view::Execution;

/// An execution of a message, with whose rows it saw.
#[derive(Drop)]
pub struct Attempt {
    /// What was decided. It is true by its type.
    pub execution: Execution,
    /// Whose rows it saw, in the order of reading.
    pub log: Vec<Look>,
}
