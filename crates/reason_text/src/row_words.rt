use crate::account_row_words::AccountRowWords;
use crate::budget_words::BudgetWords;
use crate::card_words::CardWords;
use crate::day_words::DayWords;
use crate::kept_words::KeptWords;
use crate::mark_words::MarkWords;
use issuer_rows::RowVal;
use std::fmt;

/// A row for people, as `available 500, currency 978`. Card numbers are masked.
#[derive(Clone, Copy)]
pub struct RowWords<'a>(pub &'a RowVal);

impl fmt::Display for RowWords<'_> {
    ghost use Rattle.std.specs.Prelude.{Some};
    ghost use Rattle.reason_text.specs.Words.{row_words};

    ghost output = { λ words. Some (row_words words.0.now) };

    fn fmt<W: fmt::Write>(&self, f: &mut fmt::Formatter<W>) -> fmt::Result {
        match self.0 {
            RowVal::Card(card) => CardWords(*card).fmt(f),
            RowVal::Velocity(day) => DayWords(*day).fmt(f),
            RowVal::Budget(budget) => BudgetWords(*budget).fmt(f),
            RowVal::Kept(kept) => KeptWords(*kept).fmt(f),
            RowVal::Ahead(mark) => MarkWords(*mark).fmt(f),
            RowVal::Account(account) => AccountRowWords(*account).fmt(f),
        }
    }
}
