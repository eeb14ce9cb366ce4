ghost use Rattle.std.specs.Prelude.{◌≡◌};
ghost use Rattle.book_laws.specs.Parts.{part_number};

/// A part of a book's text.
#[derive(Clone, Copy, Debug, PartialEq, Eq)]
pub enum Part {
    /// The top object.
    Top,
    /// The version.
    Version,
    /// The cards.
    Cards,
    /// What was spent with cards on days.
    Days,
    /// The stand-in budgets.
    Budgets,
    /// The originals that were decided.
    Originals,
    /// The originals whose reversals came ahead of them.
    Ahead,
    /// The accounts.
    Accounts,
}

impl Part {
    /// The part's number in a fault, 0 to 7. The parts are read in this order.
    pub fn number(self) -> u8
        ensures { result ≡ part_number self }
    {
        match self {
            Part::Top => 0,
            Part::Version => 1,
            Part::Cards => 2,
            Part::Days => 3,
            Part::Budgets => 4,
            Part::Originals => 5,
            Part::Ahead => 6,
            Part::Accounts => 7,
        }
    }
}
