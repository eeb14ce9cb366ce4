use crate::bodies::Bodies;
use crate::log_end::LogEnd;

/// What stands next in a log.
#[derive(Drop)]
pub enum LogStep {
    /// An entry of these bodies.
    Entry(Bodies),
    /// No further entry: the log ends here, and what is left, if anything, is a torn tail.
    End(LogEnd),
}
