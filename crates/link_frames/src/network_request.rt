use crate::network_message::NetworkMessage;

/// A network management request that came on a link, and where: how many bodies came between it and the one before it.
#[derive(Clone, Copy)]
pub struct NetworkRequest {
    /// How many bodies came between it and the request before it, or before it where it is the first.
    pub bodies_before: u32,
    /// The request, 1804.
    pub message: NetworkMessage,
}
