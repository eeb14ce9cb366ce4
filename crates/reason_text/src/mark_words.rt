use crate::identity_words::IdentityWords;
use crate::kind_words::KindWords;
use iso_shown::MaskedPan;
use issuer_rows::Mark;
use std::fmt;

/// A reversal mark for people.
#[derive(Clone, Copy)]
pub struct MarkWords(pub Mark);

impl fmt::Display for MarkWords {
    ghost use Rattle.std.specs.Prelude.{Some};
    ghost use Rattle.reason_text.specs.Words.{mark_words};

    ghost output = { λ words. Some (mark_words words.0) };

    fn fmt<W: fmt::Write>(&self, f: &mut fmt::Formatter<W>) -> fmt::Result {
        let reversal = IdentityWords(self.0.reversal);
        let kind = KindWords(self.0.kind);
        let card = MaskedPan::new(self.0.card);
        write!(f, "{kind} of card {card}, reversed ahead by {reversal}")
    }
}
