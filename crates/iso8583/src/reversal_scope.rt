use crate::amount::Amount;

/// How much of an original is taken back: elements 24 and 30 of a reversal (ISO 8583:1993).
#[derive(Clone, Copy, PartialEq, Eq)]
pub enum ReversalScope {
    /// Function code 400: all of it.
    Full,
    /// Function code 401: what is over the message's own amount; here the original's amount, from element 30.
    Partial(Amount),
}
