use issuer_rows::CardStatus;
use std::fmt;

/// Whether a card may be used, for people.
#[derive(Clone, Copy)]
pub struct StatusWords(pub CardStatus);

impl fmt::Display for StatusWords {
    ghost use Rattle.std.specs.Prelude.{Some};
    ghost use Rattle.reason_text.specs.Words.{status_words};

    ghost output = { λ words. Some (status_words words.0) };

    fn fmt<W: fmt::Write>(&self, f: &mut fmt::Formatter<W>) -> fmt::Result {
        f.write_str(match self.0 {
            CardStatus::Active => "active",
            CardStatus::Blocked => "blocked",
            CardStatus::Lost => "lost",
            CardStatus::Stolen => "stolen",
        })
    }
}
