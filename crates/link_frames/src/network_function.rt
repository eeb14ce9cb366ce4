/// What a network message asks for, element 24 (ISO 8583:1993).
#[derive(Clone, Copy, Debug, PartialEq, Eq)]
pub enum NetworkFunction {
    /// Sign-on, 801.
    SignOn,
    /// Sign-off, 802.
    SignOff,
    /// Echo test, 831.
    Echo,
}

impl NetworkFunction {
    ghost use Rattle.std.specs.Prelude.{◌≡◌, ◌≢◌, IfSome, IfNone, length};
    ghost use Rattle.link_frames.specs.Network.{function_text};
    ghost use Rattle.link_frames.specs.declared.network_function.NetworkFunction.{NetworkFunction};

    /// The function of this code. `None` for another.
    pub fn new(text: &[u8]) -> Option<NetworkFunction>
        ensures some { IfSome result (λ function. text.now ≡ function_text function) }
        ensures none { IfNone result ((function : NetworkFunction) → text.now ≢ function_text function) }
    {
        match text {
            b"801" => Some(NetworkFunction::SignOn),
            b"802" => Some(NetworkFunction::SignOff),
            b"831" => Some(NetworkFunction::Echo),
            _ => None,
        }
    }

    /// Its code.
    pub fn as_slice(&self) -> &'static [u8]
        ensures text { result.now ≡ function_text self.now }
        ensures size { length result.now ≡ 3 }
    {
        match self {
            NetworkFunction::SignOn => b"801".as_slice(),
            NetworkFunction::SignOff => b"802".as_slice(),
            NetworkFunction::Echo => b"831".as_slice(),
        }
    }
}
