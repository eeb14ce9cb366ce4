/// The rule that decides a message: the first of its kind's table whose condition holds. The action code (element 39 of ISO 8583:1993) that
/// a request, an advice or a reversal is answered by it stands behind its name.
#[derive(Clone, Copy, Debug, PartialEq, Eq)]
pub enum DecisionRule {
    /// The body is no message: answered its fault.
    NoMessage,
    /// A reversal of this message came ahead of it: request 914, advice 900.
    ReversedAhead,
    /// The mark of a reversal of another message stands at its identity: 913.
    MarkOfAnother,
    /// The repeat of a message that is kept: the action that was answered first.
    Repeat,
    /// Another message of its identity is kept: 913.
    Duplicate,
    /// The processing code is neither a purchase nor a withdrawal: request 119.
    NotPermitted,
    /// The amount is 0: request 110.
    NoAmount,
    /// The card number fails the Luhn test (ISO/IEC 7812-1): request 111.
    WrongCardNumber,
    /// The acquirer didn't approve: advice 900.
    NotApproved,
    /// There is no record of the card: request 118, advice 900.
    NoCard,
    /// The card is blocked: request 100.
    CardBlocked,
    /// The card is lost: request 208.
    CardLost,
    /// The card is stolen: request 209.
    CardStolen,
    /// The card's last month is over: request 101.
    CardExpired,
    /// The account that is named is not the card's: request 119, advice 900.
    NotOfCard,
    /// There is no record of the account: request 909, advice 900.
    NoAccount,
    /// The account is in another currency: request 100, advice 900.
    OtherCurrency,
    /// One approval too many on that day: request 123.
    TooManyApprovals,
    /// Too much money on that day: request 121.
    TooMuchMoney,
    /// The card's approvals are at their greatest: request 909.
    ApprovalsExhausted,
    /// The budget stands in, and can't pay: request 907.
    BudgetRefuses,
    /// The budget stands in, and pays: request 000, advice 901.
    BudgetPays,
    /// Less is available than the amount: request 116, advice 900.
    NotSufficientFunds,
    /// The account pays: request 000, advice 901.
    AccountPays,
    /// Nothing stands at the identity of the original: reversal 914, and its mark.
    NoOriginal,
    /// A mark stands at the identity of the original: reversal 914.
    MarkedBefore,
    /// The original is of another card or kind: reversal 914.
    OtherOriginal,
    /// The repeat of the reversal that the original has: reversal 400.
    ReversalRepeat,
    /// The original has another reversal: reversal 913.
    ReversedBefore,
    /// The original wasn't posted: reversal 400.
    NotPosted,
    /// The part isn't one of the original's amount: reversal 110.
    WrongPart,
    /// There is no record of what paid: reversal 914.
    NoPayer,
    /// There is no record of the original's day: reversal 914.
    NoDay,
    /// What paid would have more than it may: reversal 909.
    BalanceTooGreat,
    /// The original's day has less than is given back: reversal 909.
    DayTooShort,
    /// The money goes back: reversal 400.
    GivenBack,
}
