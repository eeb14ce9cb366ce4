/// What is counted or summed of a day, each under names of its own.
#[derive(Clone, Copy, Debug, PartialEq, Eq)]
pub enum Figure {
    /// Bodies by message type; those that are no message under `no message`.
    Types,
    /// Messages that are marked as repeats, by type: 1101, 1121 and 1421.
    Repeats,
    /// Replies by action code, element 39.
    Actions,
    /// Amounts of approved requests in minor units, by currency code. Repeats are left out.
    Approved,
    /// Amounts of declined requests in minor units, by currency code. Repeats are left out.
    Declined,
    /// Amounts that reversals took back in minor units, by currency code. Repeats are left out.
    Reversed,
    /// Approved requests by the hour of their local time, 00 to 23. Repeats are left out.
    Hours,
    /// Declined requests by terminal, element 41. Repeats are left out.
    Terminals,
    /// Declined requests by card, of whose number the first six and the last four digits are shown. Repeats are left out.
    Cards,
}
