use crate::approval_words::ApprovalWords;
use iso8583::{Answer, Verdict};
use std::fmt;

/// What a message is answered, for people.
#[derive(Clone, Copy)]
pub struct AnswerWords(pub Answer);

impl fmt::Display for AnswerWords {
    ghost use Rattle.std.specs.Prelude.{Some};
    ghost use Rattle.reason_text.specs.Words.{answer_words};

    ghost output = { λ words. Some (answer_words words.0) };

    fn fmt<W: fmt::Write>(&self, f: &mut fmt::Formatter<W>) -> fmt::Result {
        match &self.0 {
            Answer::Request(Verdict::Approved(code), _) => {
                let code = ApprovalWords(*code);
                write!(f, "1110 000, approval code {code}")
            }
            Answer::Request(Verdict::Declined(code), _) => {
                let action = code.action().digits();
                let action = action.as_str();
                write!(f, "1110 {action}")
            }
            Answer::Advice(action, _) => {
                let action = action.digits();
                let action = action.as_str();
                write!(f, "1130 {action}")
            }
            Answer::Reversal(action) => {
                let action = action.digits();
                let action = action.as_str();
                write!(f, "1430 {action}")
            }
        }
    }
}
