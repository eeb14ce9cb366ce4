use issuer_rows::VelocityRow;
use std::fmt;

/// The row of a card's day for people, as `approvals 2, spent 5300`.
#[derive(Clone, Copy)]
pub struct DayWords(pub VelocityRow);

impl fmt::Display for DayWords {
    ghost use Rattle.std.specs.Prelude.{Some};
    ghost use Rattle.reason_text.specs.Words.{day_words};

    ghost output = { λ words. Some (day_words words.0) };

    fn fmt<W: fmt::Write>(&self, f: &mut fmt::Formatter<W>) -> fmt::Result {
        let (count, sum) = (self.0.count.number(), self.0.sum.minor());
        write!(f, "approvals {count}, spent {sum}")
    }
}
