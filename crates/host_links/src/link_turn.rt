use issuer_rows::Frame;
use link_frames::NetworkRequest;
use std::collections::LinkedList;

/// What came in one turn of one of several links. The history of a host's turns is a list of them, which exists in proofs alone: no value of
/// it is made.
pub struct LinkTurn {
    /// The link's number, from 0 on.
    pub link: usize,
    /// The bytes of the frames that came.
    pub bytes: LinkedList<u8>,
    /// The bodies in them that are decided.
    pub bodies: LinkedList<LinkedList<u8>>,
    /// The network management requests, each with how many bodies came between it and the one before it.
    pub requests: LinkedList<NetworkRequest>,
    /// The messages that the bodies spell, and the faults of bodies that spell none.
    pub messages: LinkedList<Frame>,
}
