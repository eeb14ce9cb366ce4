ghost use Rattle.std.specs.Prelude.{◌≡◌, ◌≤◌, length};
ghost use Rattle.book_text.specs.Members.{name_text};

/// A member of the entry of a row, by its name in a book's text.
#[derive(Clone, Copy)]
pub enum Member {
    /// `account`
    Account,
    /// `acquirer`
    Acquirer,
    /// `action`
    Action,
    /// `amount`
    Amount,
    /// `approval`
    Approval,
    /// `approvals`
    Approvals,
    /// `available`
    Available,
    /// `cap`
    Cap,
    /// `count`
    Count,
    /// `currency`
    Currency,
    /// `day`
    Day,
    /// `day_amount`
    DayAmount,
    /// `day_count`
    DayCount,
    /// `expiry`
    Expiry,
    /// `id`
    Id,
    /// `kind`
    Kind,
    /// `left`
    Left,
    /// `mode`
    Mode,
    /// `paid`
    Paid,
    /// `pan`
    Pan,
    /// `prefix`
    Prefix,
    /// `processing`
    Processing,
    /// `reversal`
    Reversal,
    /// `reversed`
    Reversed,
    /// `second`
    Second,
    /// `stamp`
    Stamp,
    /// `status`
    Status,
    /// `stay`
    Stay,
    /// `sum`
    Sum,
    /// `trace`
    Trace,
}

impl Member {
    // The name with its quotes and its colon.
    #[inline(always)]
    pub(crate) fn text(self) -> &'static str
        ensures text { result.now ≡ name_text self }
        ensures short { length result.now ≤ 32 }
    {
        match self {
            Member::Account => "\"account\":",
            Member::Acquirer => "\"acquirer\":",
            Member::Action => "\"action\":",
            Member::Amount => "\"amount\":",
            Member::Approval => "\"approval\":",
            Member::Approvals => "\"approvals\":",
            Member::Available => "\"available\":",
            Member::Cap => "\"cap\":",
            Member::Count => "\"count\":",
            Member::Currency => "\"currency\":",
            Member::Day => "\"day\":",
            Member::DayAmount => "\"day_amount\":",
            Member::DayCount => "\"day_count\":",
            Member::Expiry => "\"expiry\":",
            Member::Id => "\"id\":",
            Member::Kind => "\"kind\":",
            Member::Left => "\"left\":",
            Member::Mode => "\"mode\":",
            Member::Paid => "\"paid\":",
            Member::Pan => "\"pan\":",
            Member::Prefix => "\"prefix\":",
            Member::Processing => "\"processing\":",
            Member::Reversal => "\"reversal\":",
            Member::Reversed => "\"reversed\":",
            Member::Second => "\"second\":",
            Member::Stamp => "\"stamp\":",
            Member::Status => "\"status\":",
            Member::Stay => "\"stay\":",
            Member::Sum => "\"sum\":",
            Member::Trace => "\"trace\":",
        }
    }
}
