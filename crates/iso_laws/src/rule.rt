/// What an element's text has to do with the other elements that are there.
#[derive(Clone, Copy)]
pub enum Rule {
    /// Nothing.
    Free,
    /// Function code of a reversal: 400 without element 30, or 401 with it.
    Scope,
    /// Action code of a reply to a request: 000 with element 38, or another without it.
    Verdict,
}
