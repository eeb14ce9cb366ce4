use crate::identity_words::IdentityWords;
use issuer_rows::Settlement;
use std::fmt;

/// How a posted original was reversed, for people; nothing where it wasn't.
#[derive(Clone, Copy)]
pub struct SettlementWords(pub Option<Settlement>);

impl fmt::Display for SettlementWords {
    ghost use Rattle.std.specs.Prelude.{Some};
    ghost use Rattle.reason_text.specs.Words.{settlement_words};

    ghost output = { λ words. Some (settlement_words words.0) };

    fn fmt<W: fmt::Write>(&self, f: &mut fmt::Formatter<W>) -> fmt::Result {
        match &self.0 {
            Some(settlement) => {
                let (by, stay) = (IdentityWords(settlement.reversal), settlement.stay.minor());
                write!(f, ", reversed by {by}, stays {stay}")
            }
            None => Ok(()),
        }
    }
}
