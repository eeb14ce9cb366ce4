use crate::answer_words::AnswerWords;
use iso8583::Digits;
use issuer_rows::ReplyBody;
use std::fmt;

/// A reply for people: its type, action code and approval code, or the fault of a body that is no message.
#[derive(Clone, Copy)]
pub struct ReplyWords<'a>(pub &'a ReplyBody);

impl fmt::Display for ReplyWords<'_> {
    ghost use Rattle.std.specs.Prelude.{Some};
    ghost use Rattle.reason_text.specs.Words.{reply_words};

    ghost output = { λ words. Some (reply_words words.0.now) };

    fn fmt<W: fmt::Write>(&self, f: &mut fmt::Formatter<W>) -> fmt::Result {
        match self.0 {
            ReplyBody::Reply(reply) => AnswerWords(reply.answer).fmt(f),
            ReplyBody::Fault(fault) => {
                let fault = fault.fault();
                let number = Digits::<2>::of_number(u64::from(fault.number()));
                let element = Digits::<3>::of_number(u64::from(fault.element()));
                let (number, element) = (number.as_str(), element.as_str());
                write!(f, "F{number}{element}")
            }
        }
    }
}
