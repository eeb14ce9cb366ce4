use iso8583::OriginalKind;
use std::fmt;

/// Which kind of message an original is, for people.
#[derive(Clone, Copy)]
pub struct KindWords(pub OriginalKind);

impl fmt::Display for KindWords {
    ghost use Rattle.std.specs.Prelude.{Some};
    ghost use Rattle.reason_text.specs.Words.{kind_words};

    ghost output = { λ words. Some (kind_words words.0) };

    fn fmt<W: fmt::Write>(&self, f: &mut fmt::Formatter<W>) -> fmt::Result {
        f.write_str(match self.0 {
            OriginalKind::Request => "request",
            OriginalKind::Advice => "advice",
        })
    }
}
