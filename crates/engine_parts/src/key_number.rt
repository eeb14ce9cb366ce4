ghost use Rattle.std.specs.Prelude.{◌≡◌};
ghost use Rattle.engine_parts.specs.Ties.{number_is};

/// The number of a key.
#[derive(Clone, Copy)]
pub(crate) enum KeyNumber {
    /// It had this one.
    Known(u32),
    /// It got this one.
    New(u32),
}

impl KeyNumber {
    /// The number, whether it is known or new.
    pub(crate) fn number(self) -> u32
        ensures { result ≡ number_is self }
    {
        match self {
            KeyNumber::Known(number) | KeyNumber::New(number) => number,
        }
    }
}
