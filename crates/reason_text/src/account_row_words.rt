use issuer_rows::AccountRow;
use std::fmt;

/// The row of an account for people, as `available 500, currency 978`.
#[derive(Clone, Copy)]
pub struct AccountRowWords(pub AccountRow);

impl fmt::Display for AccountRowWords {
    ghost use Rattle.std.specs.Prelude.{Some};
    ghost use Rattle.reason_text.specs.Words.{account_row_words};

    ghost output = { λ words. Some (account_row_words words.0) };

    fn fmt<W: fmt::Write>(&self, f: &mut fmt::Formatter<W>) -> fmt::Result {
        let available = self.0.available.minor();
        let currency = self.0.currency.0.as_str();
        write!(f, "available {available}, currency {currency}")
    }
}
