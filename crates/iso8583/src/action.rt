ghost use Rattle.std.specs.Prelude.{◌≡◌, ℕ, ◌≤◌, ◌<◌, length};
ghost use Rattle.std.specs.Option.{SomeIff};
ghost use Rattle.iso8583.specs.Number.{number_of, fixed_digits};

use crate::digits::Digits;
use crate::number::number_of;
use std::marker::Model;

/// Action code, element 39: 0 to 999 (ISO 8583:1993).
#[derive(Clone, Copy, PartialEq, Eq)]
pub struct Action {
    code: u16,
}

impl Model for Action {
    ghost use Rattle.std.specs.Prelude.{ℕ, ◌<◌};

    ghost Value = { ℕ };

    ghost view = { λ a. a.code };

    ghost invariant = { λ a. a.code < 1000 };

    ghost inverse = { λ n. record { code = n } };
}

impl Action {
    /// 000: approved.
    pub const APPROVED: Action = Action { code: 0 };

    /// 100: do not honour.
    pub const DO_NOT_HONOUR: Action = Action { code: 100 };

    /// 101: expired card.
    pub const EXPIRED_CARD: Action = Action { code: 101 };

    /// 110: invalid amount.
    pub const INVALID_AMOUNT: Action = Action { code: 110 };

    /// 111: invalid card number.
    pub const INVALID_CARD_NUMBER: Action = Action { code: 111 };

    /// 116: not sufficient funds.
    pub const NOT_SUFFICIENT_FUNDS: Action = Action { code: 116 };

    /// 118: no card record.
    pub const NO_CARD_RECORD: Action = Action { code: 118 };

    /// 119: transaction not permitted to cardholder.
    pub const NOT_PERMITTED: Action = Action { code: 119 };

    /// 121: exceeds withdrawal amount limit.
    pub const EXCEEDS_AMOUNT_LIMIT: Action = Action { code: 121 };

    /// 123: exceeds withdrawal frequency limit.
    pub const EXCEEDS_FREQUENCY_LIMIT: Action = Action { code: 123 };

    /// 208: lost card.
    pub const LOST_CARD: Action = Action { code: 208 };

    /// 209: stolen card.
    pub const STOLEN_CARD: Action = Action { code: 209 };

    /// 400: accepted (reversal).
    pub const REVERSED: Action = Action { code: 400 };

    /// 900: advice acknowledged, no financial liability accepted.
    pub const ACKNOWLEDGED: Action = Action { code: 900 };

    /// 901: advice acknowledged, financial liability accepted.
    pub const LIABILITY_ACCEPTED: Action = Action { code: 901 };

    /// 907: issuer or switch inoperative.
    pub const ISSUER_INOPERATIVE: Action = Action { code: 907 };

    /// 909: system malfunction.
    pub const SYSTEM_MALFUNCTION: Action = Action { code: 909 };

    /// 913: duplicate transmission.
    pub const DUPLICATE: Action = Action { code: 913 };

    /// 914: not able to trace back to original.
    pub const NOT_TRACED: Action = Action { code: 914 };

    /// The action code, if it has at most three digits.
    pub fn new(code: u16) -> Option<Action>
        ensures { SomeIff result (code < 1000) code }
    {
        if code < 1000 {
            Some(Action { code })
        } else {
            None
        }
    }

    /// The action code that three digits stand for.
    pub fn from_digits(digits: &Digits<3>) -> Action
        ensures { result ≡ number_of digits.now }
    {
        Action {
            code: number_of(digits.as_slice()) as u16,
        }
    }

    /// The code as a number, 0 to 999.
    pub fn code(&self) -> u16
        ensures value { result ≡ self.now }
        ensures bound { result < 1000 }
    {
        self.code
    }

    /// The action code as three digits.
    pub fn digits(&self) -> Digits<3>
        ensures { result ≡ fixed_digits 3 self.now }
    {
        Digits::of_number(u64::from(self.code))
    }
}
