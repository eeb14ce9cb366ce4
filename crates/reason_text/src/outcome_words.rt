use crate::approval_words::ApprovalWords;
use crate::payment_words::PaymentWords;
use crate::reversed_words::ReversedWords;
use issuer_rows::OriginalOutcome;
use std::fmt;

/// What became of an original, for people.
#[derive(Clone, Copy)]
pub struct OutcomeWords(pub OriginalOutcome);

impl fmt::Display for OutcomeWords {
    ghost use Rattle.std.specs.Prelude.{Some};
    ghost use Rattle.reason_text.specs.Words.{outcome_words};

    ghost output = { λ words. Some (outcome_words words.0) };

    fn fmt<W: fmt::Write>(&self, f: &mut fmt::Formatter<W>) -> fmt::Result {
        match &self.0 {
            OriginalOutcome::Approved(code, payment) => {
                let (code, payment) = (ApprovalWords(*code), PaymentWords(*payment));
                write!(f, "answered 000, approval code {code}, {payment}")
            }
            OriginalOutcome::Accepted(payment) => {
                let payment = PaymentWords(*payment);
                write!(f, "answered 901, {payment}")
            }
            OriginalOutcome::Declined(code, by) => {
                let (action, by) = (code.action().digits(), ReversedWords(*by));
                let action = action.as_str();
                write!(f, "answered {action}{by}")
            }
            OriginalOutcome::Acknowledged(code, by) => {
                let (action, by) = (code.action().digits(), ReversedWords(*by));
                let action = action.as_str();
                write!(f, "answered {action}{by}")
            }
        }
    }
}
