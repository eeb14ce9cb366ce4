use crate::named_words::NamedWords;
use crate::transaction_words::TransactionWords;
use iso8583::Request;
use std::fmt;

/// An authorization request for people.
#[derive(Clone, Copy)]
pub struct RequestWords<'a>(pub &'a Request);

impl fmt::Display for RequestWords<'_> {
    ghost use Rattle.std.specs.Prelude.{Some};
    ghost use Rattle.reason_text.specs.Words.{request_words};

    ghost output = { λ words. Some (request_words words.0.now) };

    fn fmt<W: fmt::Write>(&self, f: &mut fmt::Formatter<W>) -> fmt::Result {
        let kind = if self.0.repeat { "1101" } else { "1100" };
        let transaction = TransactionWords(&self.0.transaction);
        let named = NamedWords(self.0.account);
        write!(f, "{kind}{transaction}{named}")
    }
}
