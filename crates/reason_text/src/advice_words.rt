use crate::named_words::NamedWords;
use crate::transaction_words::TransactionWords;
use iso8583::Advice;
use std::fmt;

/// An authorization advice for people.
#[derive(Clone, Copy)]
pub struct AdviceWords<'a>(pub &'a Advice);

impl fmt::Display for AdviceWords<'_> {
    ghost use Rattle.std.specs.Prelude.{Some};
    ghost use Rattle.reason_text.specs.Words.{advice_words};

    ghost output = { λ words. Some (advice_words words.0.now) };

    fn fmt<W: fmt::Write>(&self, f: &mut fmt::Formatter<W>) -> fmt::Result {
        let kind = if self.0.repeat { "1121" } else { "1120" };
        let transaction = TransactionWords(&self.0.transaction);
        let action = self.0.action.digits();
        let action = action.as_str();
        let named = NamedWords(self.0.account);
        write!(f, "{kind}{transaction}, action {action}{named}")
    }
}
