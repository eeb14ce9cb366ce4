use crate::balance::Balance;
use iso8583::Currency;

/// The row of an account. The account's name is the row's key.
#[derive(Clone, Copy, PartialEq, Eq)]
pub struct AccountRow {
    /// Money that may be spent.
    pub available: Balance,
    /// Currency of its amounts.
    pub currency: Currency,
}
