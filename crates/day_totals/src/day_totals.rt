ghost use Rattle.std.specs.Prelude.{◌≤◌, IfOk, length};
ghost use Rattle.day_totals.specs.Day.{AreGreatestOf, shown};
ghost use Rattle.day_totals.specs.Totals.{AreDayTotals};

use crate::exchange::Exchange;
use crate::figure::Figure;
use crate::greatest::greatest_of;
use crate::total::Total;
use crate::totals::totals_of;
use std::alloc::{AllocError, Global};

/// How a day went.
#[derive(Drop)]
pub struct DayTotals {
    /// Bodies by message type.
    pub types: Vec<Total>,
    /// Repeats by message type.
    pub repeats: Vec<Total>,
    /// Replies by action code.
    pub actions: Vec<Total>,
    /// Sums of money by currency.
    pub money: MoneyTotals,
    /// Requests by hour, terminal and card.
    pub requests: RequestTotals,
}

/// Sums of a day's amounts by currency code, in minor units.
#[derive(Drop)]
pub struct MoneyTotals {
    /// Of approved requests.
    pub approved: Vec<Total>,
    /// Of declined requests.
    pub declined: Vec<Total>,
    /// What reversals took back.
    pub reversed: Vec<Total>,
}

/// How many of a day's requests were approved and declined.
#[derive(Drop)]
pub struct RequestTotals {
    /// Approved, by hour.
    pub hours: Vec<Total>,
    /// Declined, by terminal: the ten most.
    pub terminals: Vec<Total>,
    /// Declined, by masked card number: the ten most.
    pub cards: Vec<Total>,
}

impl DayTotals {
    /// Of a day of at most 65,536 exchanges. It fails only where memory runs out.
    pub fn of(alloc: Global, day: &[Exchange]) -> Result<DayTotals, AllocError>
        requires { length day.now ≤ 65536 }
        ensures { IfOk result (AreDayTotals day.now) }
    {
        Ok(DayTotals {
            types: totals_of(alloc, Figure::Types, day)?,
            repeats: totals_of(alloc, Figure::Repeats, day)?,
            actions: totals_of(alloc, Figure::Actions, day)?,
            money: MoneyTotals::of(alloc, day)?,
            requests: RequestTotals::of(alloc, day)?,
        })
    }
}

impl MoneyTotals {
    ghost use Rattle.std.specs.Prelude.{◌≤◌, IfOk, length};
    ghost use Rattle.day_totals.specs.Totals.{AreMoneyTotals};

    // Of a day.
    fn of(alloc: Global, day: &[Exchange]) -> Result<MoneyTotals, AllocError>
        requires { length day.now ≤ 65536 }
        ensures { IfOk result (AreMoneyTotals day.now) }
    {
        Ok(MoneyTotals {
            approved: totals_of(alloc, Figure::Approved, day)?,
            declined: totals_of(alloc, Figure::Declined, day)?,
            reversed: totals_of(alloc, Figure::Reversed, day)?,
        })
    }
}

impl RequestTotals {
    ghost use Rattle.std.specs.Prelude.{◌≤◌, IfOk, length};
    ghost use Rattle.day_totals.specs.Totals.{AreRequestTotals};

    // Of a day.
    fn of(alloc: Global, day: &[Exchange]) -> Result<RequestTotals, AllocError>
        requires { length day.now ≤ 65536 }
        ensures { IfOk result (AreRequestTotals day.now) }
    {
        Ok(RequestTotals {
            hours: totals_of(alloc, Figure::Hours, day)?,
            terminals: most_of(alloc, Figure::Terminals, day)?,
            cards: most_of(alloc, Figure::Cards, day)?,
        })
    }
}

// The ten greatest totals of a figure.
fn most_of(alloc: Global, figure: Figure, day: &[Exchange]) -> Result<Vec<Total>, AllocError>
    requires { length day.now ≤ 65536 }
    ensures { IfOk result (λ greatest. AreGreatestOf figure day.now (shown greatest.items)) }
{
    greatest_of(totals_of(alloc, figure, day)?)
}
