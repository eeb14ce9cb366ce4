use crate::network_function::NetworkFunction;
use iso8583::{LocalStamp, Stan, Transmission};

/// A network management request, 1804 (ISO 8583:1993).
#[derive(Clone, Copy)]
pub struct NetworkMessage {
    /// Element 7, if it is there.
    pub transmission: Option<Transmission>,
    /// Element 11.
    pub stan: Stan,
    /// Element 12.
    pub stamp: LocalStamp,
    /// Element 24.
    pub function: NetworkFunction,
}
