//! Audit of a run from outside: are these the replies and this the book that deciding one after another gives, and what
//! differs first?
#![tactic(auto)]

mod audited;
mod auditing;
mod auditing_blocks;
mod auditing_journals;
mod block_audit;
mod comparing;
mod texts;

pub use audited::Audit;
pub use auditing::audit;
pub use auditing_blocks::audit_blocks;
pub use auditing_journals::audit_journal;
pub use block_audit::BlockAudit;
pub use texts::{audit_text, block_audit_text};
