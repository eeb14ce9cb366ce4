ghost use Rattle.std.specs.Prelude.{◌≡◌, ℕ, ◌<◌};
ghost use Rattle.std.specs.Option.{SomeIff};

use crate::action::Action;
use std::marker::Model;

/// An action code that is no approval: 1 to 999 (ISO 8583:1993, element 39).
#[derive(Clone, Copy, PartialEq, Eq)]
pub struct DeclineCode {
    action: Action,
}

impl Model for DeclineCode {
    ghost use Rattle.std.specs.Prelude.{ℕ, ◌<◌};

    ghost Value = { ℕ };

    ghost view = { λ d. d.action };

    ghost invariant = { λ d. 0 < d.action };

    ghost inverse = { λ n. record { action = n } };
}

impl DeclineCode {
    /// 100: do not honour.
    pub const DO_NOT_HONOUR: DeclineCode = DeclineCode {
        action: Action::DO_NOT_HONOUR,
    };

    /// 101: expired card.
    pub const EXPIRED_CARD: DeclineCode = DeclineCode {
        action: Action::EXPIRED_CARD,
    };

    /// 110: invalid amount.
    pub const INVALID_AMOUNT: DeclineCode = DeclineCode {
        action: Action::INVALID_AMOUNT,
    };

    /// 111: invalid card number.
    pub const INVALID_CARD_NUMBER: DeclineCode = DeclineCode {
        action: Action::INVALID_CARD_NUMBER,
    };

    /// 116: not sufficient funds.
    pub const NOT_SUFFICIENT_FUNDS: DeclineCode = DeclineCode {
        action: Action::NOT_SUFFICIENT_FUNDS,
    };

    /// 118: no card record.
    pub const NO_CARD_RECORD: DeclineCode = DeclineCode {
        action: Action::NO_CARD_RECORD,
    };

    /// 119: transaction not permitted to cardholder.
    pub const NOT_PERMITTED: DeclineCode = DeclineCode {
        action: Action::NOT_PERMITTED,
    };

    /// 121: exceeds withdrawal amount limit.
    pub const EXCEEDS_AMOUNT_LIMIT: DeclineCode = DeclineCode {
        action: Action::EXCEEDS_AMOUNT_LIMIT,
    };

    /// 123: exceeds withdrawal frequency limit.
    pub const EXCEEDS_FREQUENCY_LIMIT: DeclineCode = DeclineCode {
        action: Action::EXCEEDS_FREQUENCY_LIMIT,
    };

    /// 208: lost card.
    pub const LOST_CARD: DeclineCode = DeclineCode {
        action: Action::LOST_CARD,
    };

    /// 209: stolen card.
    pub const STOLEN_CARD: DeclineCode = DeclineCode {
        action: Action::STOLEN_CARD,
    };

    /// 907: issuer or switch inoperative.
    pub const ISSUER_INOPERATIVE: DeclineCode = DeclineCode {
        action: Action::ISSUER_INOPERATIVE,
    };

    /// 909: system malfunction.
    pub const SYSTEM_MALFUNCTION: DeclineCode = DeclineCode {
        action: Action::SYSTEM_MALFUNCTION,
    };

    /// 913: duplicate transmission.
    pub const DUPLICATE: DeclineCode = DeclineCode {
        action: Action::DUPLICATE,
    };

    /// 914: not able to trace back to original.
    pub const NOT_TRACED: DeclineCode = DeclineCode {
        action: Action::NOT_TRACED,
    };

    /// The code, if it is no approval.
    pub fn new(action: Action) -> Option<DeclineCode>
        ensures { SomeIff result (0 < action) action }
    {
        if action.code() == 0 {
            None
        } else {
            Some(DeclineCode { action })
        }
    }

    /// The action code.
    pub fn action(&self) -> Action
        ensures value { result ≡ self.now }
        ensures declined { 0 < result }
    {
        self.action
    }
}
