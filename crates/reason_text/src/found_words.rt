use crate::row_words::RowWords;
use issuer_rows::RowVal;
use std::fmt;

/// What was found under a key, for people: a row, or that it is absent.
#[derive(Clone, Copy)]
pub struct FoundWords<'a>(pub &'a Option<RowVal>);

impl fmt::Display for FoundWords<'_> {
    ghost use Rattle.std.specs.Prelude.{Some};
    ghost use Rattle.reason_text.specs.Words.{found_words};

    ghost output = { λ words. Some (found_words words.0.now) };

    fn fmt<W: fmt::Write>(&self, f: &mut fmt::Formatter<W>) -> fmt::Result {
        match self.0 {
            Some(row) => RowWords(row).fmt(f),
            None => f.write_str("absent"),
        }
    }
}
