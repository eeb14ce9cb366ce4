use crate::kind_words::KindWords;
use crate::outcome_words::OutcomeWords;
use iso_shown::MaskedPan;
use issuer_rows::Kept;
use std::fmt;

/// What is kept of an original, for people.
#[derive(Clone, Copy)]
pub struct KeptWords(pub Kept);

impl fmt::Display for KeptWords {
    ghost use Rattle.std.specs.Prelude.{Some};
    ghost use Rattle.reason_text.specs.Words.{kept_words};

    ghost output = { λ words. Some (kept_words words.0) };

    fn fmt<W: fmt::Write>(&self, f: &mut fmt::Formatter<W>) -> fmt::Result {
        let kind = KindWords(self.0.outcome().kind());
        let card = MaskedPan::new(self.0.card());
        let amount = self.0.amount().minor();
        let processing = self.0.processing();
        let processing = processing.0.as_str();
        let outcome = OutcomeWords(self.0.outcome());
        write!(
            f,
            "{kind} of card {card}, amount {amount}, processing code {processing}, {outcome}"
        )
    }
}
