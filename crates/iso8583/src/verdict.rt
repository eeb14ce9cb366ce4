use crate::approval::Approval;
use crate::decline_code::DeclineCode;

/// The answer to an authorization request: elements 38 and 39 of its reply (ISO 8583:1993). An approval code
/// is there exactly where the request is approved.
#[derive(Clone, Copy, PartialEq, Eq)]
pub enum Verdict {
    /// Action 000, with the approval code.
    Approved(Approval),
    /// Any other action.
    Declined(DeclineCode),
}
