use crate::decoding::push_copy;
use link_frames::{NetworkMessage, NetworkRequest, decode_network};
use log_file::Bodies;
use std::alloc::{AllocError, Global};

/// What came on a link in one turn: bodies, which are decided, and network management requests, which the link answers itself.
#[derive(Drop)]
pub struct Turn {
    /// The bodies, in order.
    pub bodies: Bodies,
    /// The requests, in order, each with how many bodies came between it and the one before it.
    pub requests: Vec<NetworkRequest>,
    // How many bodies came behind the last request.
    between: u32,
}

impl Turn {
    ghost use Rattle.std.specs.Prelude.{◌≡◌, ◌+◌, ◌<◌, ◌≤◌, ◌∷◌, ◌++◌, [], List, length, OnOk};
    ghost use Rattle.file_laws.specs.Files.{IsBody};
    ghost use Rattle.link_frames.specs.Incoming.{Incoming, IsIncoming, body_in};
    ghost use Rattle.host_serving.specs.Turn.{IsTurn};

    /// Nothing came.
    pub fn new(alloc: Global) -> Turn
        ensures { IsTurn [] result }
    {
        Turn {
            bodies: Bodies::new(alloc),
            requests: Vec::new(alloc),
            between: 0,
        }
    }

    /// Takes all away, and keeps the memory.
    pub(crate) fn clear(&mut self)
        ensures { IsTurn [] self.new }
    {
        self.bodies.clear();
        self.requests.clear();
        self.between = 0;
    }

    // Takes a network management request.
    fn add_request(&mut self, message: NetworkMessage) -> Result<(), AllocError>
        ensures bodies { OnOk result (self.new.bodies ≡ self.old.bodies) }
        ensures requests { OnOk result (self.new.requests.items
            ≡ self.old.requests.items ++ record { bodies_before = self.old.between; message = message } ∷ []) }
        ensures between { OnOk result (self.new.between ≡ 0) }
    {
        let request = NetworkRequest {
            bodies_before: self.between,
            message,
        };
        push_copy(&mut self.requests, &request)?;
        self.between = 0;
        Ok(())
    }

    // Takes a body that is decided.
    fn add_body(&mut self, body: &[u8]) -> Result<(), AllocError>
        requires body { IsBody body.now }
        requires room { length self.old.bodies < 65536 }
        requires few { self.old.between < 65536 }
        ensures bodies { OnOk result (self.new.bodies ≡ self.old.bodies ++ body.now ∷ []) }
        ensures requests { OnOk result (self.new.requests.items ≡ self.old.requests.items) }
        ensures between { OnOk result (self.new.between ≡ self.old.between + 1) }
    {
        self.bodies.push(body)?;
        self.between += 1;
        Ok(())
    }

    /// Takes what one frame more has. Memory can run out.
    pub(crate) fn take(&mut self, body: &[u8]) -> Result<(), AllocError>
        requires body { IsBody body.now }
        requires room { length self.old.bodies < 65536 }
        requires few { self.old.between < 65536 }
        ensures taken { (incoming : List Incoming) → IsTurn incoming self.old
            → OnOk result ((item : Incoming) × IsIncoming item × (body.now ≡ body_in item) × IsTurn (incoming ++ item ∷ []) self.new) }
        ensures bodies { OnOk result (length self.new.bodies ≤ length self.old.bodies + 1) }
        ensures between { OnOk result (self.new.between ≤ self.old.between + 1) }
    {
        match decode_network(body) {
            Some(message) => self.add_request(message),
            None => self.add_body(body),
        }
    }
}
