ghost use Rattle.std.specs.Prelude.{◌≡◌, ◌≢◌};
ghost use Rattle.std.specs.Option.{SomeIff};

use iso8583::Action;
use std::marker::Model;

/// An action code for an advice that isn't posted: 0 to 999, but not 901 (ISO 8583:1993, element 39).
#[derive(Clone, Copy, PartialEq, Eq)]
pub struct UnpostedAction {
    action: Action,
}

impl Model for UnpostedAction {
    ghost use Rattle.std.specs.Prelude.{◌≢◌, ℕ};

    ghost Value = { ℕ };

    ghost view = { λ u. u.action };

    ghost invariant = { λ u. u.action ≢ 901 };

    ghost inverse = { λ n. record { action = n } };
}

impl UnpostedAction {
    /// 900: advice acknowledged, no financial liability accepted.
    pub const ACKNOWLEDGED: UnpostedAction = UnpostedAction {
        action: Action::ACKNOWLEDGED,
    };

    /// The code, if it is not 901.
    pub fn new(action: Action) -> Option<UnpostedAction>
        ensures { SomeIff result (action ≢ 901) action }
    {
        if action.code() == 901 {
            None
        } else {
            Some(UnpostedAction { action })
        }
    }

    /// The action code.
    pub fn action(&self) -> Action
        ensures value { result ≡ self.now }
        ensures unposted { result ≢ 901 }
    {
        self.action
    }
}
