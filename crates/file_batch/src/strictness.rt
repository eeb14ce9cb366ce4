/// What is to come of a batch some of whose bodies are no message.
#[derive(Clone, Copy, Debug, PartialEq, Eq)]
pub enum Strictness {
    /// It is decided, and these bodies are answered their faults.
    Lenient,
    /// It is refused.
    Strict,
}
