use issuer_laws::DecisionRule;
use issuer_view::Execution;

/// Why a body is decided so.
#[derive(Drop)]
pub struct Explanation {
    /// The rule that decides it.
    pub rule: DecisionRule,
    /// The decision: the rows that it read, those that it writes, and the reply.
    pub execution: Execution,
}
