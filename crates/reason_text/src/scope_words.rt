use iso8583::ReversalScope;
use std::fmt;

/// How much a reversal takes back, for people.
#[derive(Clone, Copy)]
pub struct ScopeWords(pub ReversalScope);

impl fmt::Display for ScopeWords {
    ghost use Rattle.std.specs.Prelude.{Some};
    ghost use Rattle.reason_text.specs.Words.{scope_words};

    ghost output = { λ words. Some (scope_words words.0) };

    fn fmt<W: fmt::Write>(&self, f: &mut fmt::Formatter<W>) -> fmt::Result {
        match self.0 {
            ReversalScope::Full => f.write_str(", in full"),
            ReversalScope::Partial(amount) => {
                let amount = amount.minor();
                write!(f, ", in part, of {amount}")
            }
        }
    }
}
