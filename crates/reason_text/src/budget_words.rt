use issuer_rows::{BudgetMode, BudgetRow};
use std::fmt;

/// The row of a budget for people.
#[derive(Clone, Copy)]
pub struct BudgetWords(pub BudgetRow);

impl fmt::Display for BudgetWords {
    ghost use Rattle.std.specs.Prelude.{Some};
    ghost use Rattle.reason_text.specs.Words.{budget_words};

    ghost output = { λ words. Some (budget_words words.0) };

    fn fmt<W: fmt::Write>(&self, f: &mut fmt::Formatter<W>) -> fmt::Result {
        let (cap, left) = (self.0.cap.minor(), self.0.left.minor());
        match self.0.mode {
            BudgetMode::StandIn => { write!(f, "stands in, at most {cap} a message, left {left}") }
            BudgetMode::Direct => {
                write!(f, "doesn't stand in, at most {cap} a message, left {left}")
            }
        }
    }
}
