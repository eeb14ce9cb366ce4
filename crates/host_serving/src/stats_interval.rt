use std::marker::Model;

/// After how many bodies a host tells how it goes: 1 or more.
#[derive(Clone, Copy, Debug, PartialEq, Eq)]
pub struct StatsInterval {
    bodies: u64,
}

impl Model for StatsInterval {
    ghost use Rattle.std.specs.Prelude.{ℕ, ◌≤◌};

    ghost Value = { ℕ };

    ghost view = { λ s. s.bodies };

    ghost invariant = { λ s. 1 ≤ s.bodies };

    ghost inverse = { λ n. record { bodies = n } };
}

impl StatsInterval {
    ghost use Rattle.std.specs.Prelude.{◌≡◌, ◌≤◌};
    ghost use Rattle.std.specs.Option.{SomeIff};
    ghost use Rattle.host_serving.specs.Lines.{is_due};

    /// So many bodies, unless that is none.
    pub fn new(bodies: u64) -> Option<StatsInterval>
        ensures { SomeIff result (1 ≤ bodies) bodies }
    {
        if bodies >= 1 {
            Some(StatsInterval { bodies })
        } else {
            None
        }
    }

    /// Whether a multiple of it was reached since there were fewer bodies.
    pub(crate) fn is_due(self, before: u64, after: u64) -> bool
        ensures { result ≡ is_due self before after }
    {
        before / self.bodies < after / self.bodies
    }
}
