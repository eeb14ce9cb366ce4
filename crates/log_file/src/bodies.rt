ghost use Rattle.std.specs.Prelude.{◌≡◌, ◌<◌, ◌^◌, ◌++◌, length, take, OnOk};
ghost use Rattle.file_laws.specs.Files.{framed};

use crate::body_iter::BodyIter;
use crate::splitting::{is_framed, split_count};
use std::alloc::{AllocError, Global};
use std::marker::Model;

/// The bodies of one entry in order, at most 65,536, each of 1 to 512 bytes. They are kept in one text, each behind its length.
#[derive(Drop)]
pub struct Bodies {
    text: Vec<u8>,
    count: u32,
}

impl Model for Bodies {
    ghost use Rattle.std.specs.Prelude.{ℕ, List};
    ghost use Rattle.log_file.specs.Bodies.{bodies_in, IsFramed};

    ghost Value = { List (List ℕ) };

    ghost view = { λ b. bodies_in b.count b.text.items };

    ghost invariant = { λ b. IsFramed b.count b.text.items };
}

impl Bodies {
    ghost use Rattle.std.specs.Prelude.{◌≡◌, ◌≢◌, ◌↔◌, ◌<◌, ◌≤◌, ◌∷◌, ◌++◌, ℕ, List, [], length, IsTrue, IfOk, IfSome, IfNone, OnOk, OnErr};
    ghost use Rattle.std.specs.List.{flat_map};
    ghost use Rattle.file_laws.specs.Files.{AreBodies, IsBody, framed};
    ghost use Rattle.file_laws.specs.Texts.{payload_text};

    /// No bodies.
    pub fn new(alloc: Global) -> Bodies
        ensures { result ≡ [] }
    {
        Bodies {
            text: Vec::new(alloc),
            count: 0,
        }
    }

    /// How many they are.
    pub fn len(&self) -> u32
        ensures count { result ≡ length self.now }
        ensures are { AreBodies self.now }
    {
        self.count
    }

    /// Whether there is none.
    pub fn is_empty(&self) -> bool
        ensures { IsTrue result ↔ (self.now ≡ []) }
    {
        self.count == 0
    }

    /// Whether there is no room for one more.
    pub fn is_full(&self) -> bool
        ensures { IsTrue result ↔ (65536 ≤ length self.now) }
    {
        self.count >= 65_536
    }

    /// Takes one more. Memory can run out, and then they are as they were.
    pub fn push(&mut self, body: &[u8]) -> Result<(), AllocError>
        requires body { IsBody body.now }
        requires room { length self.old < 65536 }
        ensures ok { OnOk result (self.new ≡ self.old ++ body.now ∷ []) }
        ensures err { OnErr result (self.new ≡ self.old) }
    {
        let before = self.text.len();
        match add_framed(&mut self.text, body) {
            Ok(()) => {
                self.count += 1;
                Ok(())
            }
            Err(error) => {
                self.text.truncate(before);
                Err(error)
            }
        }
    }

    /// Takes all away, and keeps the memory.
    pub fn clear(&mut self)
        ensures { self.new ≡ [] }
    {
        self.text.clear();
        self.count = 0;
    }

    /// Each of them, in order.
    pub fn iter(&self) -> BodyIter<'_>
        ensures { result ≡ self.now }
    {
        BodyIter::new(&self.text, self.count)
    }

    /// Each of them behind its length.
    pub(crate) fn framed(&self) -> &[u8]
        ensures text { result.now ≡ flat_map framed self.now }
        ensures are { AreBodies self.now }
    {
        &self.text
    }

    /// The bodies of a payload. `None` where it isn't one.
    pub(crate) fn of_payload(alloc: Global, payload: &[u8]) -> Result<Option<Bodies>, AllocError>
        ensures some { IfOk result (λ read. IfSome read (λ bodies. AreBodies bodies × (payload.now ≡ payload_text bodies))) }
        ensures none { IfOk result (λ read. IfNone read ((bodies : List (List ℕ)) → AreBodies bodies → payload.now ≢ payload_text bodies)) }
    {
        let Some((count, text)) = split_count(payload) else {
            return Ok(None);
        };
        if !is_framed(text, count) {
            return Ok(None);
        }
        let mut copy = Vec::new(alloc);
        copy.extend_from_slice(text)?;
        Ok(Some(Bodies { text: copy, count }))
    }
}

// Appends a body behind its length. Where memory runs out, a beginning of it may be there.
fn add_framed(text: &mut Vec<u8>, body: &[u8]) -> Result<(), AllocError>
    requires { length body.now < 2 ^ 16 }
    ensures ok { OnOk result (text.new.items ≡ text.old.items ++ framed body.now) }
    ensures kept { take (length text.old.items) text.new.items ≡ text.old.items }
{
    text.extend_from_slice(&(body.len() as u16).to_be_bytes())?;
    text.extend_from_slice(body)
}
