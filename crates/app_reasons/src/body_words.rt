use file_listing::{BodyPlace, WrongBody};
use std::fmt;

/// Which body is wrong, and why.
#[derive(Clone, Copy)]
pub struct BodyWords(pub BodyPlace);

impl fmt::Display for BodyWords {
    ghost use Rattle.std.specs.Prelude.{Some};
    ghost use Rattle.app_reasons.specs.Words.{body_words};

    ghost output = { λ words. Some (body_words words.0) };

    fn fmt<W: fmt::Write>(&self, f: &mut fmt::Formatter<W>) -> fmt::Result {
        let (number, of, at) = (self.0.number, self.0.of, self.0.at);
        match self.0.wrong {
            WrongBody::Length(length) => write!(
                f,
                "body {number} at byte {at}: length {length}, where 1 to 512 is allowed"
            ),
            WrongBody::Ends => write!(
                f,
                "body {number} at byte {at}: the file ends within it, {number} of {of} bodies are whole"
            ),
            WrongBody::NoReply => write!(
                f,
                "body {number} at byte {at}: the text of no reply and of no fault"
            ),
        }
    }
}
