use crate::identity_words::IdentityWords;
use iso8583::Identity;
use std::fmt;

/// By which message an original was reversed, for people; nothing where it wasn't.
#[derive(Clone, Copy)]
pub struct ReversedWords(pub Option<Identity>);

impl fmt::Display for ReversedWords {
    ghost use Rattle.std.specs.Prelude.{Some};
    ghost use Rattle.reason_text.specs.Words.{reversed_words};

    ghost output = { λ words. Some (reversed_words words.0) };

    fn fmt<W: fmt::Write>(&self, f: &mut fmt::Formatter<W>) -> fmt::Result {
        match &self.0 {
            Some(by) => {
                let by = IdentityWords(*by);
                write!(f, ", reversed by {by}")
            }
            None => Ok(()),
        }
    }
}
